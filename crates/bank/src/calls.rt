// A read and a write as a caller meets them, over a bank whose parts are lent: refused in the order of document 01, or granted.
// The parts come apart, as a C caller lends them: a `Bank` made of them would be a copy.
ghost use Rattle.std.specs.Prelude.{◌≡◌};
ghost use Rattle.terms.specs.Refusal.{numbered};
ghost use Rattle.bank.specs.Registers.{bank_of};
ghost use Rattle.bank.specs.Calls.{read_of, write_of};

use answers::{ReadAnswer, Write, WriteAnswer};
use registers::{PAIRS, Pair, REGISTERS};
use terms::{ProcessNumber, SlotNumber};

#[tactic(auto, using(crate::proofs::Outcomes::read_stops, crate::proofs::Outcomes::read_pair, crate::proofs::Outcomes::read_tick, crate::proofs::Outcomes::read_wait))]
pub fn read_in(
    values: &[u32; REGISTERS],
    deadlines: &mut [u32; PAIRS],
    last: &mut u32,
    i: ProcessNumber,
    c: SlotNumber,
    t: u32,
    d: u32,
) -> ReadAnswer
    ensures { record { bank = bank_of values.now deadlines.new last.new; answer = numbered result }
        ≡ read_of (bank_of values.now deadlines.old last.old) i c t d }
{
    refusals::read_refusal(*last, i, c, t, d)?;
    let pair = Pair {
        process: i,
        register: c,
    };
    Ok(registers::read_granted(values, deadlines, last, pair, t, d))
}

#[tactic(auto, using(crate::proofs::Outcomes::write_stops, crate::proofs::Outcomes::write_pair))]
pub fn write_in(
    values: &mut [u32; REGISTERS],
    deadlines: &mut [u32; PAIRS],
    last: &mut u32,
    i: ProcessNumber,
    c: SlotNumber,
    t: u32,
    v: u32,
) -> WriteAnswer
    ensures { record { bank = bank_of values.new deadlines.new last.new; answer = numbered result }
        ≡ write_of (bank_of values.old deadlines.old last.old) i c t v }
{
    refusals::call_refusal(*last, i, c, t)?;
    let pair = Pair {
        process: i,
        register: c,
    };
    if registers::write_granted(values, deadlines, last, pair, t, v) {
        return Ok(Write::Late);
    }
    Ok(Write::Done)
}
