// One piece of a window, a block of 16 by 16 squares: the local picture around it, and the marks of the squares near it.
#![tactic(auto)]

pub mod calm;
pub mod cut;
pub mod rows;
mod run;
pub mod shown;
