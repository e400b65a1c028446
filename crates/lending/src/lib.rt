// The public calls to which a list or a controller is lent decoded, `&[Transaction]` and `&mut Controller`; they do nothing but let in, gather, and
// hand on. The desk exports them.
#![tactic(auto)]

pub mod running;
pub mod schedules;
