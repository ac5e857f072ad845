// A brush, and the runs of the picture that it leaves.
#![tactic(auto)]

pub mod brush;
pub mod painting;
pub mod runs;
