// A run of the host's controller, by value.
ghost use Rattle.std.specs.Prelude.{◌/◌, length};
ghost use Rattle.records.specs.Transaction.{later_in};
ghost use Rattle.heads.specs.Queue.{Listed};
ghost use Rattle.controller.specs.Run.{run_controller, LeavesRun};

use crate::controller::{Controller, controller_of, kept_in, lend_to};
use engine::promise::Engine;
use heads::due::due;
use records::refusal::Refusal;
use records::table::Table;
use refusals::refused::check_run;

// "It reports the cycles run", beside the table's edition and the commands written.
#[derive(Clone, Copy)]
pub struct RunReport {
    pub edition: u16,
    pub commands: u32,
    pub cycles: u32,
}

// The controller as the run leaves it, and what the caller is told.
#[derive(Clone, Copy)]
pub struct RunTold {
    pub controller: Controller,
    pub answer: Result<RunReport, Refusal>,
}

// A run of at most `count` cycles by either engine, over a list of 8-byte records that fits an accepted table. The commands go into `room`.
pub fn run_controller<E: Engine>(
    c: Controller,
    t: Table,
    list: &[u8],
    count: u32,
    room: &mut [u8],
) -> RunTold
    requires { Listed t list.now (length list.now / 8) }
    ensures { LeavesRun (run_controller c t (later_in list.now) count room.old) result room.new }
{
    let n = list.len() / 8;
    let s = kept_in(c);
    let all = due(t, list, n);
    match check_run(t, list, n, all, s, count, room.len()) {
        Err(refusal) => RunTold {
            controller: c,
            answer: Err(refusal),
        },
        Ok(()) => {
            let lent = lend_to(s, n);
            let r = E::run(t, list, n, all, lent, count, room);
            let report = RunReport {
                edition: t.edition,
                commands: r.commands as u32,
                cycles: r.cycles,
            };
            RunTold {
                controller: controller_of(r.state),
                answer: Ok(report),
            }
        }
    }
}
