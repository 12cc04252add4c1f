// The bank of timed registers of document 01: 8 registers for 32 processes, with a deadline for each pair of process and register.
// A bank goes in by value and comes back by value, beside the answer; `calls` has the same two calls over a bank whose parts are lent.
#![tactic(auto)]

pub mod calls;

ghost use Rattle.std.specs.Prelude.{◌≡◌};
ghost use Rattle.terms.specs.Refusal.{numbered};
ghost use Rattle.bank.specs.Registers.{fresh_bank};
ghost use Rattle.bank.specs.Calls.{read_of, write_of};

use answers::Write;
use registers::{PAIRS, REGISTERS};
use terms::{ProcessNumber, Refusal, SlotNumber, Wait};

// The registers' values, the deadline of each pair at `(i - 1) * 8 + c`, and the tick of the last accepted call.
#[derive(Clone, Copy)]
pub struct Bank {
    pub values: [u32; REGISTERS],
    pub deadlines: [u32; PAIRS],
    pub last: u32,
}

// The bank after a call, and what it answered.
#[derive(Clone, Copy)]
pub struct Called<T> {
    pub bank: Bank,
    pub answer: Result<T, Refusal>,
}

impl Bank {
    // All values empty, every pair unbound, last tick 0. A constant too: what a function returns is copied.
    pub const FRESH: Bank = Bank {
        values: [0; REGISTERS],
        deadlines: [Wait::UNLIMITED; PAIRS],
        last: 0,
    };

    #[tactic(auto, unfolding(crate::specs::Registers::fresh_bank))]
    pub fn fresh() -> Self
        ensures { result ≡ fresh_bank }
    {
        Self::FRESH
    }

    // The value of register c; the deadline of i and c becomes t + d, or unlimited.
    pub fn read(mut self, i: ProcessNumber, c: SlotNumber, t: u32, d: u32) -> Called<u32>
        ensures { record { bank = result.bank; answer = numbered result.answer } ≡ read_of self i c t d }
    {
        let Bank {
            values,
            deadlines,
            last,
        } = &mut self;
        let answer = calls::read_in(values, deadlines, last, i, c, t, d);
        Called { bank: self, answer }
    }

    // Up to the deadline of i and c: v is stored. Late: the value stays. Either way the deadline becomes unlimited.
    pub fn write(mut self, i: ProcessNumber, c: SlotNumber, t: u32, v: u32) -> Called<Write>
        ensures { record { bank = result.bank; answer = numbered result.answer } ≡ write_of self i c t v }
    {
        let Bank {
            values,
            deadlines,
            last,
        } = &mut self;
        let answer = calls::write_in(values, deadlines, last, i, c, t, v);
        Called { bank: self, answer }
    }
}
