// Which pieces of a window wait.
#![tactic(auto)]

pub mod block;
pub mod waits;
