// A step in place: by the place of its process one operation of memory, and where the process goes with the answer.
ghost use Rattle.std.specs.Prelude.{◌≤◌, ◌≡◌};
ghost use Rattle.terms.specs.Limits.{most_slots, top_tick};
ghost use Rattle.model.specs.Bounds.{Room};
ghost use Rattle.model.specs.Memory.{flag_at};
ghost use Rattle.model.specs.Run.{row_of, move, after};
ghost use Rattle.engine.specs.Walk.{Numbered, Due};

use crate::course::Course;
use bank::Bank;
use model::{Place, Shared, State};
use registers::Pair;
use routine::takes;
use steps::Step;
use terms::{ProcessNumber, Wait};

// The flag of value v as a number: 1 where it is set.
fn flag(v: u32, shared: &Shared) -> u32
    requires { v ≤ most_slots }
    ensures { result ≡ flag_at shared.now v }
{
    u32::from(shared.flags[v as usize])
}

// A move of process i. One match: the places are closed, and a call through a table would cost more than a move.
#[tactic(auto, unfolding(model::specs::Run::move_at, bank::specs::Registers::after_read, bank::specs::Registers::after_write))]
fn make_move(course: Course, i: ProcessNumber, tick: u32, state: &mut State)
    requires numbered { Numbered i }
    requires tick { tick ≤ top_tick }
    requires room { Room course.shape (row_of state.old i) }
    ensures { state.new ≡ move course.shape state.old i tick }
{
    let shape = course.shape;
    state.newest = tick;
    let Bank {
        values,
        deadlines,
        last,
    } = &mut state.bank;
    let row = &mut state.rows[(i.0 - 1) as usize];
    let pair = Pair {
        process: i,
        register: row.local.slot,
    };
    match row.local.place {
        Place::Rest => takes::rest(shape, row),
        Place::Look => {
            let v = registers::read_granted(values, deadlines, last, pair, tick, shape.delta);
            takes::look(shape, v, row);
        }
        Place::Put => {
            let late = registers::write_granted(values, deadlines, last, pair, tick, row.own);
            takes::put(shape, late, row);
        }
        Place::Wait => takes::wait(shape, tick, row),
        Place::Check => {
            let v = registers::read_granted(values, deadlines, last, pair, tick, Wait::UNLIMITED);
            takes::check(shape, v, row);
        }
        Place::Critical => {
            let late = registers::write_granted(values, deadlines, last, pair, tick, 0);
            takes::critical(shape, late, row);
        }
        Place::Flag => {
            state.shared.flags[row.own as usize] = true;
            takes::flag(shape, row);
        }
        Place::Scan => {
            let v = flag(row.local.scan, &state.shared);
            takes::scan(shape, v, row);
        }
        Place::Decided => takes::decided(shape, row),
    }
}

// An accepted step: a move, or a crash.
#[tactic(auto, unfolding(model::specs::Run::after, model::specs::Run::stop))]
pub fn take_step(course: Course, step: Step, state: &mut State)
    requires due { Due step }
    requires room { Room course.shape (row_of state.old step.process) }
    ensures { state.new ≡ after course.shape state.old step }
{
    let crashes = step.event != 0;
    if crashes {
        let j = (step.process.0 - 1) as usize;
        state.rows[j].crash();
        state.newest = step.tick;
        return;
    }
    make_move(course, step.process, step.tick, state);
}
