// The kinds: what a trace is run against, and the number of each in a setup.
#![tactic(auto)]

ghost use Rattle.std.specs.Prelude.{◌≡◌};
ghost use Rattle.terms.specs.Refusal.{numbered};
ghost use Rattle.kinds.specs.Kinds.{bad_kind, kind_of, number_of, kind_read};

use terms::Refusal;

// The slot lock (kind 1), the plain decision (kind 2), the fast decision (kind 3).
#[derive(Clone, Copy, Debug, PartialEq, Eq)]
pub enum Kind {
    Lock = 1,
    Plain = 2,
    Fast = 3,
}

// The number of the last kind; the first is 1. specs/Kinds.antt has the table.
pub const LAST: u32 = 3;

// Whether k is the number of none of the kinds 1 to `last`.
pub fn is_bad_kind(last: u32, k: u32) -> bool
    ensures { result ≡ bad_kind last k }
{
    !(1..=last).contains(&k)
}

// The kind with the number k. A number that none has gives the nearest: `Kind::try_from` refuses it.
pub fn kind_of(k: u32) -> Kind
    ensures { result ≡ kind_of k }
{
    match k {
        0 | 1 => Kind::Lock,
        2 => Kind::Plain,
        _ => Kind::Fast,
    }
}

impl TryFrom<u32> for Kind {
    type Error = Refusal;

    ghost try_from_gives = { λ k r. numbered r ≡ kind_read k };

    fn try_from(k: u32) -> Result<Self, Refusal> {
        if is_bad_kind(LAST, k) {
            return Err(Refusal::Kind);
        }
        Ok(kind_of(k))
    }
}

impl From<Kind> for u32 {
    ghost from_gives = { λ kind k. k ≡ number_of kind };

    fn from(kind: Kind) -> u32 {
        kind as u32
    }
}
