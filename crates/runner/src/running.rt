// A controller that is run a few cycles at a time, behind the desk's calls, by either engine.
ghost use Rattle.std.specs.Prelude.{◌≡◌, Ok};
ghost use Rattle.records.specs.Table.{Accepted};
ghost use Rattle.records.specs.Transaction.{list_of};
ghost use Rattle.lists.specs.Check.{check_list, check_bytes};
ghost use Rattle.lists.specs.Packed.{held};
ghost use Rattle.controller.specs.Run.{run_controller, LeavesRun};
ghost use Rattle.admission.specs.Admit.{admitted, LetIn};
ghost use Rattle.runner.specs.Running.{runs_checked, running, has_run};

use admission::admit::{WayIn, admit};
use controller::controller::Controller;
use controller::run::{RunReport, RunTold, run_controller};
use engine::promise::Engine;
use lists::check::check_bytes;
use packing::packed::widen;
use records::refusal::Refusal;
use records::table::Table;

// The run over a list that fits an accepted table, of records of 8 bytes where `later`, else of 4, which are widened; a value, as in `list_of later`.
pub fn run_fine<E: Engine>(
    c: Controller,
    t: Table,
    later: bool,
    list: &[u8],
    count: u32,
    room: &mut [u8],
) -> RunTold
    requires { Accepted t × (check_bytes later t list.now ≡ Ok tt) }
    ensures { LeavesRun (run_controller c t (list_of later list.now) count room.old) result room.new }
{
    if later {
        return run_controller::<E>(c, t, list, count, room);
    }
    let n = list.len() / 4;
    let bytes = widen(list, n);
    let end = 8 * n;
    run_controller::<E>(c, t, &bytes[..end], count, room)
}

// Numbers 3 to 5, 9 and 12, by an accepted table; then the run.
pub fn run_by<E: Engine>(
    c: Controller,
    t: Table,
    later: bool,
    list: &[u8],
    count: u32,
    room: &mut [u8],
) -> RunTold
    requires { Accepted t }
    ensures { LeavesRun (runs_checked (check_bytes later t list.now) c t (list_of later list.now) count room.old) result room.new }
{
    match check_bytes(t, later, list) {
        Ok(()) => run_fine::<E>(c, t, later, list, count, room),
        Err(r) => RunTold {
            controller: c,
            answer: Err(r),
        },
    }
}

// Numbers 1, 2, 10, 3 to 5, 9 and 12; then the run of a controller handed in and back, over the list's bytes.
pub fn run_records<E: Engine>(
    c: Controller,
    expected: u16,
    table: &[u8],
    later: bool,
    list: &[u8],
    count: u32,
    room: &mut [u8],
) -> RunTold
    ensures { LeavesRun (running (λ τ. check_bytes later τ list.now) (admitted expected table.now) c (list_of later list.now) count room.old) result room.new }
{
    match admit(expected, table) {
        Ok(t) => run_by::<E>(c, t, later, list, count, room),
        Err(r) => RunTold {
            controller: c,
            answer: Err(r),
        },
    }
}

// The same of a lent run of records, gathered.
pub fn run_held<E: Engine>(
    c: Controller,
    w: WayIn,
    bytes: [u8; 2048],
    count: u32,
    room: &mut [u8],
) -> RunTold
    requires { LetIn w }
    ensures { LeavesRun (running (λ τ. check_list τ (held w.n bytes)) w.table c (held w.n bytes) count room.old) result room.new }
{
    let end = 8 * w.n;
    match w.table {
        Ok(t) => run_by::<E>(c, t, true, &bytes[..end], count, room),
        Err(r) => RunTold {
            controller: c,
            answer: Err(r),
        },
    }
}

pub fn has_run(a: Result<RunReport, Refusal>) -> bool
    ensures { result ≡ has_run a }
{
    matches!(a, Ok(_))
}
