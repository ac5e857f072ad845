// Lines in, replies out: the state between bytes, and a chunk of bytes taken.
#![tactic(auto)]

pub mod feed;
pub mod state;
