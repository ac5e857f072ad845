// Edge rules: their words and ranges, and lists of them.
#![tactic(auto)]

pub mod list;
pub mod rule;
