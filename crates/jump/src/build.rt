// The built schedule by the second engine: a fresh run to the end, and a pass over the transactions for the finishing cycles.
ghost use Rattle.std.specs.Prelude.{◌+◌, ◌*◌, ◌≤◌, length};
ghost use Rattle.records.specs.Transaction.{later_from};
ghost use Rattle.rules.specs.Queues.{act_queue, data_queue};
ghost use Rattle.heads.specs.Queue.{Listed};
ghost use Rattle.engine.specs.Build.{Builds};

use crate::run::run_marked;
use engine::build::{ENOUGH, Schedule};
use finishing::finish::finish_all;
use heads::due::due;
use records::table::Table;
use timing::kept::kept_fresh;

// As the plain engine's `build`.
pub fn build(t: Table, list: &[u8], n: usize, buffer: &mut [u8], finishes: &mut [u32]) -> Schedule
    requires { Listed t list.now n × (8 * (length (act_queue t (later_from list.now n 0)) + length (data_queue t (later_from list.now n 0))) ≤ length buffer.old) × (n ≤ length finishes.old) }
    ensures { Builds t (later_from list.now n 0) buffer.old buffer.new finishes.old finishes.new result }
{
    let all = due(t, list, n);
    let start = kept_fresh(t.edition);
    let r = run_marked(t, list, n, all, start, ENOUGH, buffer, finishes);
    finish_all(t, list, n, finishes);
    Schedule {
        commands: r.commands,
        cycles: r.cycles,
    }
}
