// A transaction, of 4 bytes or of 8, is read and written exactly, with numbers 3 and 4 of one record; lists are `lists`'s.
#![tactic(auto)]

pub mod later;
pub mod transaction;
