// What one process does at a move: where it goes with memory's answer; and whether it may take a step.
#![tactic(auto)]

pub mod judges;
pub mod takes;
