// What one record of a schedule leaves: what is due under its number, its place in the data queue, the marks of the pass, whether the counts agree;
// no list and no bytes are read here.
#![tactic(auto)]

pub mod counts;
pub mod due;
pub mod turn;
