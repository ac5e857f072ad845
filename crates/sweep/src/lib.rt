// A turn of check: one piece, or a row of them.
#![tactic(auto)]

pub mod lent;
pub mod sweep;
