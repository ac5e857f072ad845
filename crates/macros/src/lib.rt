// The macros width and spacing, and the rules that they write.
#![tactic(auto)]

pub mod macros;
mod pairs;
mod wanted;
