// The library as an editor in C links it: the calls, each with one number for its answer. What holds after any sequence of them is in specs/History.
#![tactic(auto)]

pub mod c;
