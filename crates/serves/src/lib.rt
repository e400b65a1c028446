// Document 02, request 10: what it is for a schedule to serve a list, and the theorems about it. There is no code: `faults` and `pass` decide it.
#![tactic(auto)]

pub mod answer;
