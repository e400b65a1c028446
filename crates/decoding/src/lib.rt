// The public calls that decode transactions into a lent run of records; the desk hands them on.
#![tactic(auto)]

pub mod reading;
