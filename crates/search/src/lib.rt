// The search for the shortest pattern, number 13: each length in turn, each cycle in turn, with fewer cycles left at each deeper call; the pattern
// judge has the last word.
#![tactic(auto)]

pub mod call;
pub mod least;
pub mod search;
