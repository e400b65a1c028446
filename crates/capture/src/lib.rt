// The analyser trace: a capture checked (7, 11, 5), written as commands and judged. One record of it is `stamps`'s; the table was admitted before.
#![tactic(auto)]

pub mod answer;
pub mod scan;
pub mod trace;
pub mod write;
