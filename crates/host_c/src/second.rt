// The calls of the second engine, which goes "straight to the next cycle at which a command leaves": each promises what the plain engine's call does.
ghost use Rattle.std.specs.Prelude.{true, false};
ghost use Rattle.records.specs.Transaction.{transactions_in, later_in};
ghost use Rattle.lists.specs.Check.{check_list, check_bytes};
ghost use Rattle.promises.specs.Admit.{admitted};
ghost use Rattle.promises.specs.Running.{running};
ghost use Rattle.host.specs.Promises.{Scheduled, RunsIn, RunsBack};

use answers::answer::{Answer, RunAnswer};
use controller::controller::Controller;
use records::transaction::Transaction;

// The schedule, of transactions of 4 bytes.
#[unsafe(no_mangle)]
pub extern "C" fn skv_schedule_straight_bytes(
    expected: u16,
    table: &[u8],
    list: &[u8],
    commands: &mut [u8],
    finishes: &mut [u32],
) -> Answer
    ensures { Scheduled (λ τ. check_bytes false τ list.now) (admitted expected table.now) (transactions_in list.now) commands.old commands.new finishes.old finishes.new result }
{
    host::second::skv_schedule_straight_bytes(expected, table, list, commands, finishes)
}

// Of transactions of 8 bytes.
#[unsafe(no_mangle)]
pub extern "C" fn skv_schedule_straight_later_bytes(
    expected: u16,
    table: &[u8],
    list: &[u8],
    commands: &mut [u8],
    finishes: &mut [u32],
) -> Answer
    ensures { Scheduled (λ τ. check_bytes true τ list.now) (admitted expected table.now) (later_in list.now) commands.old commands.new finishes.old finishes.new result }
{
    host::second::skv_schedule_straight_later_bytes(expected, table, list, commands, finishes)
}

// Of a lent run of records.
#[unsafe(no_mangle)]
pub extern "C" fn skv_schedule_straight(
    expected: u16,
    table: &[u8],
    list: &[Transaction],
    commands: &mut [u8],
    finishes: &mut [u32],
) -> Answer
    ensures { Scheduled (λ τ. check_list τ list.now) (admitted expected table.now) list.now commands.old commands.new finishes.old finishes.new result }
{
    host::second::skv_schedule_straight(expected, table, list, commands, finishes)
}

// The controller handed in and back, over the bytes of transactions of 4.
#[unsafe(no_mangle)]
pub extern "C" fn skv_run_straight_bytes(
    c: Controller,
    expected: u16,
    table: &[u8],
    list: &[u8],
    count: u32,
    room: &mut [u8],
) -> RunAnswer
    ensures { RunsBack (running (λ τ. check_bytes false τ list.now) (admitted expected table.now) c (transactions_in list.now) count room.old) result room.new }
{
    host::second::skv_run_straight_bytes(c, expected, table, list, count, room)
}

// Of transactions of 8 bytes.
#[unsafe(no_mangle)]
pub extern "C" fn skv_run_straight_later_bytes(
    c: Controller,
    expected: u16,
    table: &[u8],
    list: &[u8],
    count: u32,
    room: &mut [u8],
) -> RunAnswer
    ensures { RunsBack (running (λ τ. check_bytes true τ list.now) (admitted expected table.now) c (later_in list.now) count room.old) result room.new }
{
    host::second::skv_run_straight_later_bytes(c, expected, table, list, count, room)
}

// The controller run where it lies, over a lent run of records.
#[unsafe(no_mangle)]
pub extern "C" fn skv_run_straight(
    c: &mut Controller,
    expected: u16,
    table: &[u8],
    list: &[Transaction],
    count: u32,
    room: &mut [u8],
) -> Answer
    ensures { RunsIn (running (λ τ. check_list τ list.now) (admitted expected table.now) c.old list.now count room.old) result c.new room.new }
{
    host::second::skv_run_straight(c, expected, table, list, count, room)
}

// One cycle.
#[unsafe(no_mangle)]
pub extern "C" fn skv_step_straight(
    c: &mut Controller,
    expected: u16,
    table: &[u8],
    list: &[Transaction],
    room: &mut [u8],
) -> Answer
    ensures { RunsIn (running (λ τ. check_list τ list.now) (admitted expected table.now) c.old list.now 1 room.old) result c.new room.new }
{
    host::second::skv_step_straight(c, expected, table, list, room)
}
