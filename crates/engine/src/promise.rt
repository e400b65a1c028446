// What an engine promises: its run and its built schedule are those of the cycle rule.
ghost use Rattle.std.specs.Prelude.{[], ◌+◌, ◌*◌, ◌≤◌, length};
ghost use Rattle.records.specs.Transaction.{later_from};
ghost use Rattle.rules.specs.Queues.{act_queue, data_queue};
ghost use Rattle.rules.specs.Run.{run as run_of};
ghost use Rattle.heads.specs.Queue.{Listed, Counted};
ghost use Rattle.timing.specs.Kept.{told};
ghost use Rattle.engine.specs.Run.{Ready, Runs};
ghost use Rattle.engine.specs.Build.{Builds};

use crate::build::{Schedule, build};
use crate::run::{Ran, run};
use heads::due::Counts;
use records::table::Table;
use timing::kept::Kept;

pub trait Engine {
    fn run(
        t: Table,
        list: &[u8],
        n: usize,
        all: Counts,
        start: Kept,
        count: u32,
        buffer: &mut [u8],
    ) -> Ran
        requires { Ready t list.now n (told start) count (length buffer.old) × Counted t list.now n all }
        ensures { Runs (run_of count t (later_from list.now n 0) (told start) []) buffer.old buffer.new result };

    fn build(t: Table, list: &[u8], n: usize, buffer: &mut [u8], finishes: &mut [u32]) -> Schedule
        requires { Listed t list.now n × (8 * (length (act_queue t (later_from list.now n 0)) + length (data_queue t (later_from list.now n 0))) ≤ length buffer.old) × (n ≤ length finishes.old) }
        ensures { Builds t (later_from list.now n 0) buffer.old buffer.new finishes.old finishes.new result };
}

// The plain engine, cycle by cycle.
pub struct Plain;

impl Engine for Plain {
    fn run(
        t: Table,
        list: &[u8],
        n: usize,
        all: Counts,
        start: Kept,
        count: u32,
        buffer: &mut [u8],
    ) -> Ran {
        run(t, list, n, all, start, count, buffer)
    }

    fn build(t: Table, list: &[u8], n: usize, buffer: &mut [u8], finishes: &mut [u32]) -> Schedule {
        build(t, list, n, buffer, finishes)
    }
}
