// The bound's value, off an accepted table; its refusals are `builder`'s.
#![tactic(auto)]

pub mod bound;
