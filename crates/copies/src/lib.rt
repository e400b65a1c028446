// The judge of one copy of a schedule; it knows that copy alone.
#![tactic(auto)]

pub mod copy;
pub mod grouping;
pub mod judging;
