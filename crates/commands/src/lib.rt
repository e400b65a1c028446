// A command is read and written exactly; no rule is asked.
#![tactic(auto)]

pub mod command;
