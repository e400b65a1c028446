// What the host links: every call of the desk, with slices, plain numbers and structs of plain numbers. Any bytes may be handed in; nothing is
// decided here.
#![tactic(auto)]

pub mod bounding;
pub mod judging;
pub mod one_record;
pub mod patterns;
pub mod reading;
pub mod running;
pub mod schedules;
pub mod second;
pub mod serving;
pub mod tracing;
