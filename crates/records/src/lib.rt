// The records of document 01, as types and definitions, with numbers in bytes and tests on them; the readers and writers stand in `tables`,
// `transactions` and `commands`, and nothing here knows of time.
#![tactic(auto)]

pub mod command;
pub mod little;
pub mod refusal;
pub mod table;
pub mod tests;
pub mod transaction;
