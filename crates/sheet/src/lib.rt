// A layout, three tables that belong together: their test, and a report on an area.
#![tactic(auto)]

pub mod report;
pub mod shape;
