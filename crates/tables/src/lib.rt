// Whole tables: of a window of space, and of the picture that a brush leaves.
#![tactic(auto)]

pub mod table;
