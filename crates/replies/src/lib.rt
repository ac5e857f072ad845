// The session's replies: a reply to its bytes.
#![tactic(auto)]

pub mod reply;
