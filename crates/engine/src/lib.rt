// The plain engine: the cycle rule cycle by cycle, a run and the built schedule with its finishing cycles; it refuses nothing.
#![tactic(auto)]

pub mod build;
pub mod promise;
pub mod run;
