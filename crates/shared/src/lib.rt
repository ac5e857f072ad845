// What two tables share.
#![tactic(auto)]

pub mod shared;
