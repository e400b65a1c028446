// The running state in plain numbers, the rules read off a bank of it, and a bank after a command; judge and engines share it. What the groups decide
// is `grouped`'s; it knows neither queues nor bytes.
#![tactic(auto)]

pub mod kept;
