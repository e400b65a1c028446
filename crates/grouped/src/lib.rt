// What the groups' latest commands decide: the tests over all groups of a table, and a group after a command. It keeps no state and touches no
// byte.
#![tactic(auto)]

pub mod groups;
