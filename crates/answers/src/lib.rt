// The desk's answers as structs of plain numbers, which is what crosses to the host; nothing is decided here.
#![tactic(auto)]

pub mod answer;
pub mod patterns;
pub mod reader;
