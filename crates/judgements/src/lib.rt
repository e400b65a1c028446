// The public calls that judge: a schedule, a pattern, a capture, a schedule beside its list; and the two that need neither, the bound and the shortest
// pattern. `desk` exports them; none writes before all that it may refuse is looked at.
#![tactic(auto)]

pub mod bounding;
pub mod judging;
pub mod patterns;
pub mod serving;
pub mod tracing;
