// The errors of one piece, marked anew.
#![tactic(auto)]

pub mod remark;
