// The engine: a step in place, a run over a trace's bytes, the report. An index is a number by `as`: `usize` has no `From` a `u32`.
#![tactic(auto)]

mod course;
mod moves;
mod report;
pub mod runs;
