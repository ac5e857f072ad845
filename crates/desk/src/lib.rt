// The desk of the session: three tables, a working room and a rule list, and what each command does to them and is answered.
// No public calls. A Desk owns its slices and keeps what specs/Kept says of them, so that its callers need not.
#![tactic(auto)]

pub mod draw;
pub mod ruling;
pub mod state;
