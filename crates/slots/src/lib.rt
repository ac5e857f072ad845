// Tiles in a working slice: put, moved, kept in order and looked up.
#![tactic(auto)]

pub mod slots;
