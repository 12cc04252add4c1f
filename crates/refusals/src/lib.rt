// What a call of the bank is refused for, by its numbers alone: 11, 17, 13 and, for a read, 18, in the order of document 01. The numbers come apart,
// as the bank is given them: a struct would be made for the call alone.
#![tactic(auto, using(terms::proofs::RefusalLaws::in_turn), unfolding(crate::specs::Refusals::call_refusal, crate::specs::Refusals::read_refusal))]

ghost use Rattle.std.specs.Prelude.{◌≡◌};
ghost use Rattle.terms.specs.Refusal.{refusal_in};
ghost use Rattle.refusals.specs.Refusals.{process_refusal, slot_refusal, tick_refusal, wait_refusal, call_refusal, read_refusal};

use terms::{ProcessNumber, Refusal, SlotNumber, Trace, Wait};

fn process_refusal(i: ProcessNumber) -> Result<(), Refusal>
    ensures { refusal_in result ≡ process_refusal i }
{
    if i.0 < 1 || Trace::PROCESSES < i.0 {
        return Err(Refusal::Process);
    }
    Ok(())
}

fn slot_refusal(c: SlotNumber) -> Result<(), Refusal>
    ensures { refusal_in result ≡ slot_refusal c }
{
    if Trace::SLOTS <= c.0 {
        return Err(Refusal::Register);
    }
    Ok(())
}

fn tick_refusal(last: u32, t: u32) -> Result<(), Refusal>
    ensures { refusal_in result ≡ tick_refusal last t }
{
    if Trace::TOP_TICK < t || t < last {
        return Err(Refusal::Tick);
    }
    Ok(())
}

fn wait_refusal(d: u32) -> Result<(), Refusal>
    ensures { refusal_in result ≡ wait_refusal d }
{
    if Wait::TOP < d && d != Wait::UNLIMITED {
        return Err(Refusal::Wait);
    }
    Ok(())
}

// What a read and a write are refused for alike: 11, 17, 13.
pub fn call_refusal(last: u32, i: ProcessNumber, c: SlotNumber, t: u32) -> Result<(), Refusal>
    ensures { refusal_in result ≡ call_refusal last i c t }
{
    process_refusal(i)?;
    slot_refusal(c)?;
    tick_refusal(last, t)
}

// A read is refused for its wait as well: 18.
pub fn read_refusal(
    last: u32,
    i: ProcessNumber,
    c: SlotNumber,
    t: u32,
    d: u32,
) -> Result<(), Refusal>
    ensures { refusal_in result ≡ read_refusal last i c t d }
{
    call_refusal(last, i, c, t)?;
    wait_refusal(d)
}
