// The edges of a local picture, and what the rules forbid from each.
#![tactic(auto)]

mod cells;
pub mod edge;
pub mod near;
pub mod turn;
