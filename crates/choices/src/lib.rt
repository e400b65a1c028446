// What goes at a cycle, asked of the head of each queue; nothing is changed here.
#![tactic(auto)]

pub mod choose;
