// What C links: every call of `host` under its name, which promises what `host`'s does; nothing is done here but to call it.
#![tactic(auto)]

pub mod bounding;
pub mod judging;
pub mod one_record;
pub mod patterns;
pub mod reading;
pub mod running;
pub mod schedules;
pub mod second;
pub mod serving;
pub mod tracing;
