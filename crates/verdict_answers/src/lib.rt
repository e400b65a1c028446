// The verdicts of the judges and of `serves` as C sees them, and the table of all answers by their cases. It touches no byte.
#![tactic(auto)]

pub mod verdict;
