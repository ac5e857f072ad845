// One plane painted: the calls.
#![tactic(auto)]

pub mod paint;
