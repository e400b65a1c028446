// Building a schedule by either engine, with 5 and 6, and telling the bound, with 4; the table was admitted and the list checked before.
#![tactic(auto)]

pub mod bound;
pub mod build;
