// The stitches of tiles that stand in a slice: looked for, or taken over from the table before.
#![tactic(auto)]

pub mod guess;
pub mod restitch;
pub mod stitch;
