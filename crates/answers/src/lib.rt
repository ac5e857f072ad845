// A command to its answer: check and report, and which command it is.
#![tactic(auto)]

pub mod answer;
pub mod look;
