// The heads of the two queues, found once by the counts of a state and then moved on, command by command; no rule is asked here.
#![tactic(auto)]

pub mod due;
pub mod head;
pub mod queue;
