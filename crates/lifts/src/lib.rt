// The search's hope: a place lifted to the least cycle that the judge would take, and whether the records that are left can still fit. It writes
// nothing.
#![tactic(auto)]

pub mod hope;
pub mod lift;
