// The run: a trace's records one after the other, with the state in place; and the entry point.
ghost use Rattle.std.specs.Prelude.{◌≡◌, ◌*◌, ◌≤◌, length};
ghost use Rattle.terms.specs.Limits.{most_processes, most_steps};
ghost use Rattle.terms.specs.Refusal.{refusal_in, if_accepted, numbered};
ghost use Rattle.steps.specs.Step.{step_fields};
ghost use Rattle.model.specs.Bounds.{Starts};
ghost use Rattle.model.specs.Sizes.{line_width};
ghost use Rattle.model.specs.Run.{after, record_refusal, shape_of};
ghost use Rattle.model.specs.Report.{outcome_in, ran_of};
ghost use Rattle.engine.specs.Walk.{Roomy, Begins, Walked, ran_from, set_up};

use crate::course::Course;
use crate::{moves, report};
use bank::Bank;
use model::{FLAGS, LINE, Outcome, ROWS, Refused, Row, Shape, Shared, State};
use registers::{PAIRS, REGISTERS};
use routine::judges;
use setups::{PLACES, Setup};
use terms::{Refusal, Trace, Wait};

// The record that s begins with: taken, or refused by its bytes or by the state, which then stays as it was.
#[tactic(auto, unfolding(model::specs::Run::record_refusal))]
fn take_record(course: Course, s: &[u8], state: &mut State) -> Result<(), Refusal>
    requires { Roomy course.shape state.old }
    ensures answer { refusal_in result ≡ record_refusal course.shape state.old s.now }
    ensures left { state.new
        ≡ if_accepted (record_refusal course.shape state.old s.now) (after course.shape state.old (step_fields s.now)) state.old }
{
    let step = steps::read_step_of(course.shape.count, s)?;
    let j = (step.process.0 - 1) as usize;
    judges::judge(course.shape, &state.rows[j], state.newest, step)?;
    moves::take_step(course, step, state);
    Ok(())
}

// The records of `rest`, one after the other: `state` is one that a run begins with, and then the state that the records left.
fn take_records(course: Course, rest: &[u8], state: &mut State) -> Outcome
    requires short { length rest.now ≤ 8 * most_steps }
    requires begins { Begins course.shape state.old }
    ensures { Walked course.shape state.old rest.now result state.new }
{
    // By number and not by `chunks`, since a record is said of the bytes from it on; a match, since a closure for `map_err` would be proved of by itself.
    let records = rest.len().div_ceil(8);
    for k in 0..records {
        let begin = k * 8;
        let at = k as u32 + 1;
        match take_record(course, &rest[begin..], state) {
            Ok(()) => {}
            Err(refusal) => return Err(Refused { refusal, at }),
        }
    }
    Ok(records as u32)
}

// A run of the records of `rest`, from its fresh state to its report.
#[tactic(auto, unfolding(model::specs::Run::blank_state, bank::specs::Registers::fresh_bank))]
fn run_steps(course: Course, starts: [u8; PLACES], rest: &[u8], report: &mut [u32]) -> Outcome
    requires starts { Starts course.shape starts }
    requires short { length rest.now ≤ 8 * most_steps }
    requires room { line_width * course.shape.count ≤ length report.old }
    ensures { record { outcome = outcome_in result; report = report.new } ≡ ran_from course.shape starts rest.now report.old }
{
    // As `State::fresh` has it, in place: a state that is returned, or a constant, is copied, and so is a bank whose two arrays are filled with
    // different numbers. So the values begin as the deadlines do, and are emptied where they stand.
    let mut state = State {
        rows: [Row::BLANK; ROWS],
        bank: Bank {
            values: [Wait::UNLIMITED; REGISTERS],
            deadlines: [Wait::UNLIMITED; PAIRS],
            last: 0,
        },
        shared: Shared {
            flags: [false; FLAGS],
        },
        newest: 0,
    };
    let Bank { values, .. } = &mut state.bank;
    *values = [0; REGISTERS];
    state.begin(course.shape, starts);
    let accepted = take_records(course, rest, &mut state)?;
    report::write_lines(course, &state.rows, report);
    Ok(accepted)
}

fn shape_of(setup: Setup) -> Shape
    ensures { result ≡ shape_of setup }
{
    Shape {
        kind: setup.kind,
        count: u32::from(setup.processes),
        size: u32::from(setup.size),
        delta: u32::from(setup.delta),
    }
}

// 1 to 8: the setup of a trace, where a report of `room` numbers may take its run.
fn set_up(trace: &[u8], room: usize) -> Result<Setup, Refusal>
    ensures { numbered result ≡ set_up trace.now room }
{
    let setup = setups::read_setup(trace)?;
    let n = usize::from(setup.processes);
    let short = room < LINE * n;
    if short {
        return Err(Refusal::ReportShort);
    }
    if 8 * (Trace::STEPS as usize) < trace.len() - (8 + n) {
        return Err(Refusal::TraceLong);
    }
    Ok(setup)
}

// A run of a trace, with its report: the count of accepted steps, or a refusal and its record.
pub fn run(trace: &[u8], report: &mut [u32]) -> Outcome
    ensures { record { outcome = outcome_in result; report = report.new } ≡ ran_of most_processes trace.now report.old }
{
    let setup = set_up(trace, report.len())?;
    let rest = &trace[8 + usize::from(setup.processes)..];
    let course = Course {
        shape: shape_of(setup),
    };
    run_steps(course, setup.starts, rest, report)
}
