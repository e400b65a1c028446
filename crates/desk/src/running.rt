// A controller that is run a few cycles at a time.
ghost use Rattle.std.specs.Prelude.{true, false, ◌≡◌};
ghost use Rattle.records.specs.Transaction.{transactions_in, later_in};
ghost use Rattle.lists.specs.Check.{check_bytes};
ghost use Rattle.controller.specs.Run.{LeavesRun};
ghost use Rattle.promises.specs.Admit.{admitted};
ghost use Rattle.promises.specs.Running.{starting, running};

use admission::admit::admit;
use controller::controller::{Controller, start_of};
use controller::run::RunTold;
use engine::promise::Plain;
use promises::starting::StartTold;
use runner::running::run_records;
use tables::table::table_of;

// Numbers 1, 2 and 10; then a fresh controller.
pub fn start(expected: u16, table: &[u8]) -> StartTold
    ensures { result ≡ starting (admitted expected table.now) }
{
    match admit(expected, table) {
        Ok(t) => {
            let controller = start_of(t);
            StartTold {
                controller,
                answer: Ok(t.edition),
            }
        }
        Err(r) => {
            let controller = start_of(table_of([0; 16]));
            StartTold {
                controller,
                answer: Err(r),
            }
        }
    }
}

// Of records of 4 bytes.
pub fn run_bytes(
    c: Controller,
    expected: u16,
    table: &[u8],
    list: &[u8],
    count: u32,
    room: &mut [u8],
) -> RunTold
    ensures { LeavesRun (running (λ τ. check_bytes false τ list.now) (admitted expected table.now) c (transactions_in list.now) count room.old) result room.new }
{
    run_records::<Plain>(c, expected, table, false, list, count, room)
}

// Of records of 8 bytes.
pub fn run_later_bytes(
    c: Controller,
    expected: u16,
    table: &[u8],
    list: &[u8],
    count: u32,
    room: &mut [u8],
) -> RunTold
    ensures { LeavesRun (running (λ τ. check_bytes true τ list.now) (admitted expected table.now) c (later_in list.now) count room.old) result room.new }
{
    run_records::<Plain>(c, expected, table, true, list, count, room)
}
