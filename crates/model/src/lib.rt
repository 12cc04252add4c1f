// The types of the bench. What they mean stands in specs/: Routine.antt (one process), Run.antt (one record, a trace), Report.antt.
#![tactic(auto)]

ghost use Rattle.std.specs.Prelude.{◌≡◌, ◌<◌};
ghost use Rattle.terms.specs.Limits.{most_processes};
ghost use Rattle.terms.specs.Numbers.{slot_of};
ghost use Rattle.model.specs.Bounds.{Uncounted};
ghost use Rattle.model.specs.Report.{shown_of};
ghost use Rattle.model.specs.Routine.{routine_of, counted, crash, begun, unmoved};
ghost use Rattle.model.specs.Run.{blank_state, fresh};

use bank::Bank;
use kinds::Kind;
use terms::{Refusal, SlotNumber, Trace};

// Sizes. specs/Sizes.antt has the same numbers for the prover.

// The numbers of a process in the report, and of all that there may be.
pub const LINE: usize = 4;

pub const REPORT: usize = LINE * Trace::PROCESSES as usize;

// The rows of a run, and its start bytes.
pub const ROWS: usize = Trace::PROCESSES as usize;

// The flag of value v stands at v; entry 0 is not used.
pub const FLAGS: usize = Trace::SLOTS as usize + 1;

// Where a process stands, in the order of the numbers that the report shows. A crash is no place: it is a mark beside it, in the row.
#[derive(Clone, Copy, PartialEq, Eq)]
pub enum Place {
    Rest,
    Look,
    Put,
    Wait,
    Check,
    Critical,
    Flag,
    Scan,
    Decided,
}

// What a setup says of the whole run: `size` is ℓ in kind 1 and b in the others, `delta` the bound Δ.
#[derive(Clone, Copy)]
pub struct Shape {
    pub kind: Kind,
    pub count: u32,
    pub size: u32,
    pub delta: u32,
}

// What a routine rules of a process: its place, its slot (register 0 in kinds 2 and 3), the value that it decided (0: none), the least tick at
// which it may move, the next value of its scan.
#[derive(Clone, Copy)]
pub struct Local {
    pub place: Place,
    pub slot: SlotNumber,
    pub decided: u32,
    pub wake: u32,
    pub scan: u32,
}

// One process: that, the value that it writes (its number in kind 1, its proposal in kinds 2 and 3), its moves, its late writes, and whether it
// has crashed.
#[derive(Clone, Copy)]
pub struct Row {
    pub local: Local,
    pub own: u32,
    pub moves: u32,
    pub lates: u32,
    pub crashed: bool,
}

// Memory with no deadlines.
#[derive(Clone, Copy)]
pub struct Shared {
    pub flags: [bool; FLAGS],
}

// The state of a run. `newest` is the tick of the newest accepted step; the bank's last tick moves with reads and writes only.
#[derive(Clone, Copy)]
pub struct State {
    pub rows: [Row; ROWS],
    pub bank: Bank,
    pub shared: Shared,
    pub newest: u32,
}

// The one operation of memory at a move: none; a read with a wait; a write; a flag set, or read.
#[derive(Clone, Copy)]
pub enum Ask {
    Nothing,
    Read(SlotNumber, u32),
    Write(SlotNumber, u32),
    Raise(u32),
    Peek(u32),
}

// What memory answers: the value read (of a flag, 1 or 0; 0 where nothing is read), and whether a write was late.
#[derive(Clone, Copy)]
pub struct Reply {
    pub value: u32,
    pub late: bool,
}

// For what a run was refused, and at which record: the first is 1, the setup 0.
#[derive(Clone, Copy, Debug, PartialEq, Eq)]
pub struct Refused {
    pub refusal: Refusal,
    pub at: u32,
}

// What a run returns: the count of accepted steps, or its refusal.
pub type Outcome = Result<u32, Refused>;

// At the setup, unless the run says at which record.
impl From<Refusal> for Refused {
    ghost from_gives = { λ refusal r. r ≡ record { refusal = refusal; at = 0 } };

    fn from(refusal: Refusal) -> Refused {
        Refused { refusal, at: 0 }
    }
}

// What the report shows of a place.
impl From<Place> for u32 {
    ghost from_gives = { λ place n. n ≡ shown_of place };

    fn from(place: Place) -> u32 {
        place as u32
    }
}

impl Row {
    // What stands past the last process.
    pub const BLANK: Row = Row {
        local: Local {
            place: Place::Rest,
            slot: SlotNumber(0),
            decided: 0,
            wake: 0,
            scan: 0,
        },
        own: 0,
        moves: 0,
        lates: 0,
        crashed: false,
    };

    // The process at index j, with start byte x, begins: its place, its slot and the value that it writes. Kinds are closed: a match.
    fn begin(&mut self, kind: Kind, j: u32, x: u8)
        requires { j < most_processes }
        ensures { self.new ≡ begun (Rattle.model.specs.Routine.begin (routine_of kind) j x) self.old }
    {
        let start = u32::from(x);
        match kind {
            Kind::Lock => self.start(Place::Rest, start, j + 1),
            Kind::Plain => self.start(Place::Look, 0, start),
            Kind::Fast => self.start(Place::Flag, 0, start),
        }
    }

    fn start(&mut self, place: Place, slot: u32, own: u32)
        ensures { self.new ≡ begun (unmoved place (slot_of slot) own) self.old }
    {
        self.local.place = place;
        self.local.slot = SlotNumber(slot);
        self.own = own;
    }

    // A move, and a late write where the write was late, are counted.
    pub fn count(&mut self, late: bool)
        requires { Uncounted self.old }
        ensures { self.new ≡ counted late self.old.local self.old }
    {
        self.moves += 1;
        if late {
            self.lates += 1;
        }
    }

    // A crash leaves its mark, and the rest as it stands.
    pub fn crash(&mut self)
        ensures { self.new ≡ crash self.old }
    {
        self.crashed = true;
    }
}

impl State {
    // Every process begins, in a state in which none has.
    pub fn begin(&mut self, shape: Shape, starts: [u8; ROWS])
        requires { self.old ≡ blank_state }
        ensures { self.new ≡ fresh shape starts }
    {
        let begun = ROWS.min(shape.count as usize);
        for j in 0..begun {
            self.rows[j].begin(shape.kind, j as u32, starts[j]);
        }
    }

    // The state at the start of a run.
    #[tactic(auto, unfolding(crate::specs::Run::blank_state, bank::specs::Registers::fresh_bank))]
    pub fn fresh(shape: Shape, starts: [u8; ROWS]) -> Self
        ensures { result ≡ fresh shape starts }
    {
        let mut state = State {
            rows: [Row::BLANK; ROWS],
            bank: Bank::FRESH,
            shared: Shared {
                flags: [false; FLAGS],
            },
            newest: 0,
        };
        state.begin(shape, starts);
        state
    }
}
