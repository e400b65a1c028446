// A timing table, of 32 bytes or of 40, is read and written exactly, with numbers 1 and 2; and the house tables. It knows no expected edition: that
// is `admission`'s.
#![tactic(auto)]

pub mod group_table;
pub mod house;
pub mod table;
