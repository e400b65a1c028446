// What each public call answers and leaves, refused or not, and that nothing else can be: definitions and their laws. It touches no byte; the calls
// themselves are in `desk` and what that exports.
#![tactic(auto)]

pub mod numbers;
pub mod starting;
