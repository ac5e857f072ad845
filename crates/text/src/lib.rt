// Bytes: a decimal number read, bytes and numbers written, words compared, the parts of a line, the script reader, the line buffer.
#![tactic(auto)]

pub mod line;
pub mod number;
pub mod part;
pub mod script;
pub mod word;
pub mod writer;
