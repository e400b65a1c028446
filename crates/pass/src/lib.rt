// Does a schedule serve a list? The judge's verdict comes first, then what one pass over the records finds; the table was admitted and the list
// checked before.
#![tactic(auto)]

pub mod pass;
pub mod scan;
pub mod schedule;
