// The test of a table: is a slice of words the strip table of a picture?
#![tactic(auto)]

pub mod frames;
pub mod tiles;
pub mod vet;
