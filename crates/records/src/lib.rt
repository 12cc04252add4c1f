// What both records of a trace have: the crates `setups` and `steps` read and write them.
#![tactic(auto)]

use terms::Refusal;

// What a writer answers: the record's length, or why it wrote nothing.
pub type Written = Result<usize, Refusal>;
