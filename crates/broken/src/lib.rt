// The first rule that a record breaks, by the state; the state is not changed here.
#![tactic(auto)]

pub mod alone;
pub mod among;
pub mod back;
pub mod found;
