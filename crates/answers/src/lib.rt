// What a bank answers a read and a write, or why it refuses.
#![tactic(auto)]

ghost use Rattle.std.specs.Prelude.{◌≡◌};
ghost use Rattle.terms.specs.Refusal.{refusal_in, number_in};
ghost use Rattle.answers.specs.Answers.{read_value, is_done, is_late};

use terms::Refusal;

// How a write went that was accepted.
#[derive(Clone, Copy, Debug, PartialEq, Eq)]
pub enum Write {
    Done = 1,
    Late = 2,
}

// The value read.
pub type ReadAnswer = Result<u32, Refusal>;

pub type WriteAnswer = Result<Write, Refusal>;

// The number of the refusal, 0 for none.
pub fn number<T: Drop>(answer: Result<T, Refusal>) -> u32
    ensures { result ≡ refusal_in answer }
{
    match answer {
        Ok(_) => 0,
        Err(refusal) => u32::from(refusal),
    }
}

// The same where a number refuses, any number.
pub fn number_in<T: Drop>(answer: Result<T, u32>) -> u32
    ensures { result ≡ number_in answer }
{
    answer.err().unwrap_or(0)
}

// These three ask nothing of what refuses: its number will do as well.

// The value read, 0 where the read was refused.
pub fn value<E: Drop>(answer: Result<u32, E>) -> u32
    ensures { result ≡ read_value answer }
{
    answer.unwrap_or(0)
}

pub fn is_done<E: Drop>(answer: Result<Write, E>) -> bool
    ensures { result ≡ is_done answer }
{
    matches!(answer, Ok(Write::Done))
}

pub fn is_late<E: Drop>(answer: Result<Write, E>) -> bool
    ensures { result ≡ is_late answer }
{
    matches!(answer, Ok(Write::Late))
}
