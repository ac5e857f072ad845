// A layout made and painted.
#![tactic(auto)]

pub mod create;
pub mod painting;
