// The shortest pattern (document 02, request 11): its definitions, numbers 4 and 5, its records placed and written. Whether there is hope for what is
// placed is `lifts`'s, the search itself `search`'s.
#![tactic(auto)]

pub mod answer;
pub mod place;
pub mod write;
