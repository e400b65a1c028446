// One record of a capture, read and written, and the true cycle round the wrap of its stamp. It judges nothing.
#![tactic(auto)]

pub mod one_record;
