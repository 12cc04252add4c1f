// What every layer of the bench speaks in: process and slot numbers, the limits of a trace and of a wait, numbers in bytes.
#![tactic(auto)]

ghost use Rattle.std.specs.Prelude.{◌≡◌, [], ◌∷◌};
ghost use Rattle.terms.specs.Little.{little_of, little_bytes};
ghost use Rattle.terms.specs.Refusal.{number};

// The letter i of document 003: a process, counted from 1.
#[derive(Clone, Copy, Debug, PartialEq, Eq)]
pub struct ProcessNumber(pub u32);

// The letter c of document 003: a slot, counted from 0. Slot c is register c.
#[derive(Clone, Copy, Debug, PartialEq, Eq)]
pub struct SlotNumber(pub u32);

// The limits belong to the trace itself. specs/Limits.antt has the same numbers for the prover.
#[derive(Clone, Copy)]
pub struct Trace {}

impl Trace {
    pub const PROCESSES: u32 = 32;

    // Slots of a lock, values of a decision, registers of a bank.
    pub const SLOTS: u32 = 8;

    pub const STEPS: u32 = 1_000_000;

    pub const TOP_TICK: u32 = 4_000_000_000;
}

// A read's wait, and the bound Δ: 0 to `TOP`, for a read also `UNLIMITED`.
#[derive(Clone, Copy)]
pub struct Wait {}

impl Wait {
    pub const TOP: u32 = 65_535;

    // As a deadline and as a wait: no tick with a wait reaches it, they end at 4,000,065,535.
    pub const UNLIMITED: u32 = 4_294_967_295;
}

// What is refused, in the order of document 01, whose numbers these are.
#[derive(Clone, Copy, Debug, PartialEq, Eq)]
pub enum Refusal {
    SetupCut = 1, // fewer than 8 bytes, or fewer than the setup's 8 + n
    SetupMark = 2,
    Kind = 3,
    Processes = 4, // n, the number of processes
    Size = 5, // ℓ or b, or the zero byte
    Start = 6,
    ReportShort = 7,
    TraceLong = 8,
    StepCut = 9, // fewer than 8 bytes
    StepMark = 10,
    Process = 11,
    Event = 12,
    Tick = 13, // above the top tick, or below the last one
    Crashed = 14,
    Decided = 15,
    Waiting = 16,
    Register = 17,
    Wait = 18,
    BufferShort = 19,
}

impl From<Refusal> for u32 {
    ghost from_gives = { λ refusal k. k ≡ number refusal };

    fn from(refusal: Refusal) -> u32 {
        refusal as u32
    }
}

// Numbers in bytes, by names of the bench's own: entry points, each the library's method.

// The number in 2 bytes, the lowest first.
pub fn u16_of(a: u8, b: u8) -> u16
    ensures { result ≡ little_of (a ∷ b ∷ []) }
{
    u16::from_le_bytes([a, b])
}

// The number in 4 bytes, the lowest first.
pub fn u32_of(a: u8, b: u8, c: u8, d: u8) -> u32
    ensures { result ≡ little_of (a ∷ b ∷ c ∷ d ∷ []) }
{
    u32::from_le_bytes([a, b, c, d])
}

// The 2 bytes of x, the lowest first.
pub fn u16_bytes(x: u16) -> [u8; 2]
    ensures { result ≡ little_bytes 2 x }
{
    u16::to_le_bytes(x)
}

// The 4 bytes of x, the lowest first.
pub fn u32_bytes(x: u32) -> [u8; 4]
    ensures { result ≡ little_bytes 4 x }
{
    u32::to_le_bytes(x)
}
