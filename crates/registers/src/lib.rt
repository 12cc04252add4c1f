// The deadline rule of the timed registers, in place over a bank whose parts are lent, as a C caller lends them: a read or a write whose numbers
// are known to be good. The crate `bank` refuses the others. An index is a number by `as`: `usize` has no `From` a `u32`.
#![tactic(auto)]

ghost use Rattle.std.specs.Prelude.{◌≡◌};
ghost use Rattle.terms.specs.Ranges.{IsPair, IsTick, IsWait};
ghost use Rattle.registers.specs.Deadlines.{pair_of, due, read_granted, write_granted};

use terms::{ProcessNumber, SlotNumber, Trace, Wait};

// Sizes. specs/Sizes.antt has the same numbers for the prover.

// The registers of a bank.
pub const REGISTERS: usize = Trace::SLOTS as usize;

// The pairs of a process and a register.
pub const PAIRS: usize = Trace::PROCESSES as usize * REGISTERS;

// A process and a register that there are.
#[derive(Clone, Copy)]
pub struct Pair {
    pub process: ProcessNumber,
    pub register: SlotNumber,
    ghost there: { IsPair process register },
}

impl Pair {
    // Its place among the deadlines.
    fn place(self) -> usize
        ensures { result ≡ pair_of self.process self.register }
    {
        let row = (self.process.0 - 1) as usize;
        row * REGISTERS + self.register.0 as usize
    }
}

// The deadline that a read at tick t with the wait d sets.
fn due_at(t: u32, d: u32) -> u32
    requires tick { IsTick t }
    requires wait { IsWait d }
    ensures { result ≡ due t d }
{
    if d == Wait::UNLIMITED {
        return Wait::UNLIMITED;
    }
    t + d
}

// The value of the register; the pair's deadline becomes t with the wait, or unlimited.
pub fn read_granted(
    values: &[u32; REGISTERS],
    deadlines: &mut [u32; PAIRS],
    last: &mut u32,
    pair: Pair,
    t: u32,
    d: u32,
) -> u32
    requires tick { IsTick t }
    requires wait { IsWait d }
    ensures { record { value = result; deadlines = deadlines.new; last = last.new }
        ≡ read_granted values.now deadlines.old pair.process pair.register t d }
{
    deadlines[pair.place()] = due_at(t, d);
    *last = t;
    values[pair.register.0 as usize]
}

// True where the write is late: the value stays then, and is v otherwise. Either way the pair's deadline becomes unlimited.
pub fn write_granted(
    values: &mut [u32; REGISTERS],
    deadlines: &mut [u32; PAIRS],
    last: &mut u32,
    pair: Pair,
    t: u32,
    v: u32,
) -> bool
    ensures { record { late = result; values = values.new; deadlines = deadlines.new; last = last.new }
        ≡ write_granted values.old deadlines.old pair.process pair.register t v }
{
    let place = pair.place();
    let deadline = deadlines[place];
    deadlines[place] = Wait::UNLIMITED;
    *last = t;
    if t <= deadline {
        values[pair.register.0 as usize] = v;
        return false;
    }
    true
}
