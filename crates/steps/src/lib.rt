// The step record: mark, process, event, tick. 8 bytes.
#![tactic(auto, using(terms::proofs::RefusalLaws::in_turn), unfolding(crate::specs::Step::step_write_refusal))]

ghost use Rattle.std.specs.Prelude.{◌≡◌};
ghost use Rattle.terms.specs.Limits.{most_processes};
ghost use Rattle.terms.specs.Refusal.{refusal_in, numbered};
ghost use Rattle.steps.specs.Step.{step_limits, step_read, step_write_refusal, WroteStep};

use records::Written;
use terms::{ProcessNumber, Refusal, Trace};

const MARK: [u8; 2] = [0x4F, 0x54];

// Event 0 is a move, 1 a crash; a number, since a writer is given any (12).
#[derive(Clone, Copy, Debug, PartialEq, Eq)]
pub struct Step {
    pub process: ProcessNumber,
    pub event: u32,
    pub tick: u32,
}

// 11, 12 and 13: what the reader and the writer ask alike.
fn step_limits(most: u32, step: Step) -> Result<(), Refusal>
    ensures { refusal_in result ≡ step_limits most step }
{
    if step.process.0 < 1 || most < step.process.0 {
        return Err(Refusal::Process);
    }
    if 1 < step.event {
        return Err(Refusal::Event);
    }
    if Trace::TOP_TICK < step.tick {
        return Err(Refusal::Tick);
    }
    Ok(())
}

// The step that s begins with, for processes 1 to `most`.
pub fn read_step_of(most: u32, s: &[u8]) -> Result<Step, Refusal>
    ensures { numbered result ≡ step_read most s.now }
{
    let &[m, n, process, event, t0, t1, t2, t3, ..] = s else {
        return Err(Refusal::StepCut);
    };
    if m != MARK[0] || n != MARK[1] {
        return Err(Refusal::StepMark);
    }
    let step = Step {
        process: ProcessNumber(u32::from(process)),
        event: u32::from(event),
        tick: terms::u32_of(t0, t1, t2, t3),
    };
    step_limits(most, step)?;
    Ok(step)
}

// The step that s begins with.
pub fn read_step(s: &[u8]) -> Result<Step, Refusal>
    ensures { numbered result ≡ step_read most_processes s.now }
{
    read_step_of(Trace::PROCESSES, s)
}

// 11, 12, 13, 19 of a step that is to be written to a buffer of `room` bytes.
fn step_write_refusal(step: Step, room: usize) -> Result<(), Refusal>
    ensures { refusal_in result ≡ step_write_refusal most_processes step room }
{
    step_limits(Trace::PROCESSES, step)?;
    if room < 8 {
        return Err(Refusal::BufferShort);
    }
    Ok(())
}

// Writes a step over the buffer's first bytes.
pub fn write_step(step: Step, buffer: &mut [u8]) -> Written
    ensures { WroteStep most_processes step buffer.old (numbered result) buffer.new }
{
    step_write_refusal(step, buffer.len())?;
    let [t0, t1, t2, t3] = terms::u32_bytes(step.tick);
    let bytes = [
        MARK[0],
        MARK[1],
        step.process.0 as u8,
        step.event as u8,
        t0,
        t1,
        t2,
        t3,
    ];
    buffer[..bytes.len()].copy_from_slice(&bytes);
    Ok(bytes.len())
}
