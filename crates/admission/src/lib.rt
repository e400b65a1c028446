// The way in for a table, numbers 1, 2 and 10, and for a lent run of records, number 3 by its length; no record of the run is looked at here.
#![tactic(auto)]

pub mod admit;
