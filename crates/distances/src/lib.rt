// Kinds of commands and the distances between them, in code; no state is read here.
#![tactic(auto)]

pub mod kinds;
pub mod square;
