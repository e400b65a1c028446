// What document 01 says of time: the types here, the definitions in specs/, the theorems in proofs/, in rooms. There is no code, and no bytes: the
// code that keeps to it begins with `distances` and `timing`.
#![tactic(auto)]

pub mod state;
pub mod verdict;
