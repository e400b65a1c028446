// The calls of the second engine, which goes "straight to the next cycle at which a command leaves" (document 02, request 12). Each promises what the
// plain engine's call of the same name does, in the same words.
ghost use Rattle.std.specs.Prelude.{true, false};
ghost use Rattle.records.specs.Transaction.{transactions_in, later_in};
ghost use Rattle.lists.specs.Check.{check_bytes};
ghost use Rattle.controller.specs.Run.{LeavesRun};
ghost use Rattle.promises.specs.Admit.{admitted};
ghost use Rattle.promises.specs.Schedules.{Schedules};
ghost use Rattle.promises.specs.Running.{running};

use controller::controller::Controller;
use controller::run::RunTold;
use jump::straight::Straight;
use records::refusal::Refusal;
use runner::running::run_records;
use scheduler::schedules::schedule_records;

// The schedule, of records of 4 bytes.
pub fn schedule_straight_bytes(
    expected: u16,
    table: &[u8],
    list: &[u8],
    commands: &mut [u8],
    finishes: &mut [u32],
) -> Result<(u16, usize), Refusal>
    ensures { Schedules (λ τ. check_bytes false τ list.now) (admitted expected table.now) (transactions_in list.now) commands.old commands.new finishes.old finishes.new result }
{
    schedule_records::<Straight>(expected, table, false, list, commands, finishes)
}

// Of records of 8 bytes.
pub fn schedule_straight_later_bytes(
    expected: u16,
    table: &[u8],
    list: &[u8],
    commands: &mut [u8],
    finishes: &mut [u32],
) -> Result<(u16, usize), Refusal>
    ensures { Schedules (λ τ. check_bytes true τ list.now) (admitted expected table.now) (later_in list.now) commands.old commands.new finishes.old finishes.new result }
{
    schedule_records::<Straight>(expected, table, true, list, commands, finishes)
}

// The run, of records of 4 bytes.
pub fn run_straight_bytes(
    c: Controller,
    expected: u16,
    table: &[u8],
    list: &[u8],
    count: u32,
    room: &mut [u8],
) -> RunTold
    ensures { LeavesRun (running (λ τ. check_bytes false τ list.now) (admitted expected table.now) c (transactions_in list.now) count room.old) result room.new }
{
    run_records::<Straight>(c, expected, table, false, list, count, room)
}

// Of records of 8 bytes.
pub fn run_straight_later_bytes(
    c: Controller,
    expected: u16,
    table: &[u8],
    list: &[u8],
    count: u32,
    room: &mut [u8],
) -> RunTold
    ensures { LeavesRun (running (λ τ. check_bytes true τ list.now) (admitted expected table.now) c (later_in list.now) count room.old) result room.new }
{
    run_records::<Straight>(c, expected, table, true, list, count, room)
}
