// The tests behind numbers 9 and 12: whether what a controller has stored can be, and the first new transaction that arrives too late. They refuse
// nothing themselves.
#![tactic(auto)]

pub mod late;
pub mod stored;
