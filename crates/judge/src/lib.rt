// The judge of schedules, with number 7, and of repeated patterns, with 7 and 8; the table is one that was admitted.
#![tactic(auto)]

pub mod answer;
pub mod copy;
pub mod pattern;
pub mod schedule;
