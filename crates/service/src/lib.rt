// Whether a schedule serves a list, behind the desk's calls: what is refused after the table, in order.
#![tactic(auto)]

pub mod serving;
