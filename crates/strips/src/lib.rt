// The tiles of the picture after a brush, made from the table before it.
#![tactic(auto)]

pub mod cover;
