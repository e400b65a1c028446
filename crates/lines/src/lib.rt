// The lines of the listing, of the trace and of a pattern as text in a lent buffer; what is printed is decided above.
#![tactic(auto)]

pub mod line;
