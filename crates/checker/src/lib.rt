// Check: turn by turn, until none waits.
#![tactic(auto)]

pub mod check;
