// A whole answer as text: a schedule with its finishes, commands, a refusal. It knows no call and no input.
#![tactic(auto)]

pub mod answer;
pub mod many;
