// The runs of a controller behind the desk's calls, by either engine: what is refused after the table, in order; nothing is lent decoded here.
#![tactic(auto)]

pub mod running;
