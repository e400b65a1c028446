// The second engine (document 02, request 12), which goes straight to the next cycle at which a command leaves. State, queues, answers and
// contracts are the plain engine's; it refuses nothing.
#![tactic(auto)]

pub mod build;
pub mod run;
pub mod straight;
