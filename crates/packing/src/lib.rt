// A decoded list as the bytes of its records, which is how the engines read it. It checks nothing: who packs has let the list in.
#![tactic(auto)]

pub mod packed;
