// The desk: what the customer calls. Any bytes may be handed in; a call refuses what it cannot take, with the number, the position and the edition
// of document 01, and then changes nothing. No call has a `requires`.
#![tactic(auto)]

pub mod running;
pub mod schedules;
pub mod second;

pub use commands::command::{read_command, write_command};
pub use decoding::reading::{read_later_transactions, read_transactions};
pub use judgements::bounding::bound;
pub use judgements::judging::{judge, judge_pattern};
pub use judgements::patterns::shortest_pattern;
pub use judgements::serving::{serves, serves_bytes, serves_later_bytes};
pub use judgements::tracing::judge_capture;
pub use lending::running::{run, run_straight, step, step_straight};
pub use lending::schedules::{schedule, schedule_straight};
pub use running::{run_bytes, run_later_bytes, start};
pub use schedules::{schedule_bytes, schedule_later_bytes};
pub use second::{
    run_straight_bytes, run_straight_later_bytes, schedule_straight_bytes,
    schedule_straight_later_bytes,
};
pub use stamps::one_record::{read_capture_record, write_capture_record};
pub use tables::group_table::write_group_table;
pub use tables::table::{read_table, write_table};
pub use transactions::later::{read_later, write_later};
pub use transactions::transaction::{read_transaction, write_transaction};
