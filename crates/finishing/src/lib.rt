// The finishing cycles, off the written commands; no command is chosen here.
#![tactic(auto)]

pub mod finish;
