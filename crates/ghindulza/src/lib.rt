// The C surface of the bench: numbers and slices only. include/ghindulza.h declares it for C.
// Each function takes the call apart, hands it to the layer below and puts the answer out; it returns the number of the refusal, 0 for accepted.
#![tactic(auto)]

ghost use Rattle.std.specs.Prelude.{◌≡◌};
ghost use Rattle.terms.specs.Limits.{most_processes};
ghost use Rattle.terms.specs.Numbers.{process_of, slot_of};
ghost use Rattle.terms.specs.Refusal.{numbered};
ghost use Rattle.bank.specs.Registers.{bank_of, fresh_bank};
ghost use Rattle.bank.specs.Calls.{read_of, write_of};
ghost use Rattle.setups.specs.Setup.{WroteSetup};
ghost use Rattle.steps.specs.Step.{step_read, WroteStep};
ghost use Rattle.model.specs.Report.{ran_of};
ghost use Rattle.ghindulza.specs.Surface.{ran_out, setup_out, step_out, step_of, written_out, Told, answer_code, read_out, write_out};

use answers::WriteAnswer;
use bank::calls;
use engine::runs;
use records::Written;
use registers::{PAIRS, REGISTERS};
use setups::PLACES;
use steps::Step;
use terms::{ProcessNumber, SlotNumber, Wait};

// A RUN

// `record`: the count of accepted steps, or the record of the refusal.
#[unsafe(no_mangle)]
pub extern "C" fn ghindulza_run(trace: &[u8], report: &mut [u32], record: &mut u32) -> u32
    ensures { ran_out result «record».new report.new ≡ ran_of most_processes trace.now report.old }
{
    match runs::run(trace, report) {
        Ok(accepted) => {
            *record = accepted;
            0
        }
        Err(refused) => {
            *record = refused.at;
            u32::from(refused.refusal)
        }
    }
}

// RECORDS

// `rest`: where the rest begins in `bytes`, and its length.
#[unsafe(no_mangle)]
pub extern "C" fn ghindulza_read_setup(
    bytes: &[u8],
    fields: &mut [u32; 5],
    starts: &mut [u8; PLACES],
    rest: &mut [u64; 2],
) -> u32
    ensures { record { number = result; fields = fields.new; starts = starts.new; rest = rest.new }
        ≡ setup_out bytes.now }
{
    match setups::read_setup(bytes) {
        Ok(setup) => {
            let start = 8 + usize::from(setup.processes);
            *fields = [
                u32::from(setup.kind),
                u32::from(setup.processes),
                u32::from(setup.size),
                0,
                u32::from(setup.delta),
            ];
            let places = setup.starts;
            *starts = places;
            *rest = [start as u64, (bytes.len() - start) as u64];
            0
        }
        Err(refusal) => {
            *fields = [0; 5];
            *starts = [0; PLACES];
            *rest = [0; 2];
            u32::from(refusal)
        }
    }
}

#[unsafe(no_mangle)]
pub extern "C" fn ghindulza_read_step(bytes: &[u8], fields: &mut [u32; 3]) -> u32
    ensures { record { number = result; fields = fields.new } ≡ step_out (step_read most_processes bytes.now) }
{
    match steps::read_step(bytes) {
        Ok(step) => {
            *fields = [step.process.0, step.event, step.tick];
            0
        }
        Err(refused) => {
            *fields = [0; 3];
            u32::from(refused)
        }
    }
}

// What a writer answered: the record's length, 0 where it is refused.
fn tell(written: Written, length: &mut u64) -> u32
    ensures { record { number = result; length = length.new } ≡ written_out (numbered written) }
{
    match written {
        Ok(len) => {
            *length = len as u64;
            0
        }
        Err(refusal) => {
            *length = 0;
            u32::from(refusal)
        }
    }
}

#[unsafe(no_mangle)]
pub extern "C" fn ghindulza_write_setup(
    buffer: &mut [u8],
    kind: u32,
    size: u32,
    delta: u16,
    starts: &[u8],
    length: &mut u64,
) -> u32
    ensures { Told (WroteSetup most_processes kind size delta starts.now buffer.old) result length.new buffer.new }
{
    let written = setups::write_setup(kind, size, delta, starts, buffer);
    tell(written, length)
}

#[unsafe(no_mangle)]
pub extern "C" fn ghindulza_write_step(
    buffer: &mut [u8],
    process: u32,
    event: u32,
    tick: u32,
    length: &mut u64,
) -> u32
    ensures { Told (WroteStep most_processes (step_of process event tick) buffer.old) result length.new buffer.new }
{
    let step = Step {
        process: ProcessNumber(process),
        event,
        tick,
    };
    let wrote = steps::write_step(step, buffer);
    tell(wrote, length)
}

// THE BANK

// 1 for done, 2 for late, 0 for neither.
fn answer_code(answer: WriteAnswer) -> u32
    ensures { result ≡ answer_code (numbered answer) }
{
    match answer {
        Ok(write) => write as u32,
        Err(_) => 0,
    }
}

// In place: a bank by value would be copied.
#[tactic(auto, unfolding(bank::specs::Registers::fresh_bank))]
#[unsafe(no_mangle)]
pub extern "C" fn ghindulza_bank_fresh(
    values: &mut [u32; REGISTERS],
    deadlines: &mut [u32; PAIRS],
    last: &mut u32,
)
    ensures { bank_of values.new deadlines.new last.new ≡ fresh_bank }
{
    *values = [0; REGISTERS];
    *deadlines = [Wait::UNLIMITED; PAIRS];
    *last = 0;
}

#[unsafe(no_mangle)]
pub extern "C" fn ghindulza_bank_read(
    values: &[u32; REGISTERS],
    deadlines: &mut [u32; PAIRS],
    last: &mut u32,
    process: u32,
    reg: u32,
    tick: u32,
    wait: u32,
    value: &mut u32,
) -> u32
    ensures { record { number = result; bank = bank_of values.now deadlines.new last.new; answer = value.new }
        ≡ read_out (read_of (bank_of values.now deadlines.old last.old) (process_of process) (slot_of reg) tick wait) }
{
    let found = calls::read_in(
        values,
        deadlines,
        last,
        ProcessNumber(process),
        SlotNumber(reg),
        tick,
        wait,
    );
    *value = answers::value(found);
    answers::number(found)
}

#[unsafe(no_mangle)]
pub extern "C" fn ghindulza_bank_write(
    values: &mut [u32; REGISTERS],
    deadlines: &mut [u32; PAIRS],
    last: &mut u32,
    process: u32,
    reg: u32,
    tick: u32,
    value: u32,
    answer: &mut u32,
) -> u32
    ensures { record { number = result; bank = bank_of values.new deadlines.new last.new; answer = answer.new }
        ≡ write_out (write_of (bank_of values.old deadlines.old last.old) (process_of process) (slot_of reg) tick value) }
{
    let made = calls::write_in(
        values,
        deadlines,
        last,
        ProcessNumber(process),
        SlotNumber(reg),
        tick,
        value,
    );
    *answer = answer_code(made);
    answers::number(made)
}
