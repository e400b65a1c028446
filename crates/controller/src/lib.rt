// The host's running controller: what its numbers tell, and its run by value by either engine; where it lies is the affair of `lending`.
#![tactic(auto)]

pub mod controller;
pub mod run;
