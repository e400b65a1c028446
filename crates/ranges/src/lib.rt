// The tests of a table's numbers and of a transaction's, with the refusal's number. They read no byte.
#![tactic(auto)]

pub mod fitting;
pub mod range;
