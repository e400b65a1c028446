// The earliest cycle of each head in plain numbers, and the data queue moved on; no state is changed here.
#![tactic(auto)]

pub mod free;
pub mod next;
pub mod over;
