// The tile plane: tables of strips, the walk to a square, and what an area holds.
#![tactic(auto)]

pub mod answer;
pub mod area;
pub mod fill;
mod find;
pub mod listing;
pub mod side;
pub mod table;
pub mod tile;
pub mod words;
