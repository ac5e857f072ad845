// The session's commands: a line's bytes to a command.
#![tactic(auto)]

pub mod command;
pub mod keyword;
pub mod numbers;
