// What a run from a state's numbers refuses: numbers 5, 9 and 12; nothing is run here.
#![tactic(auto)]

pub mod refused;
