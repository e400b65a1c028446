// A controller that is run a few cycles at a time.
ghost use Rattle.std.specs.Prelude.{true, false, ◌≡◌};
ghost use Rattle.records.specs.Transaction.{transactions_in, later_in};
ghost use Rattle.lists.specs.Check.{check_list, check_bytes};
ghost use Rattle.promises.specs.Admit.{admitted};
ghost use Rattle.promises.specs.Running.{starting, running};
ghost use Rattle.answers.specs.Answers.{start_of};
ghost use Rattle.host.specs.Promises.{RunsIn, RunsBack};

use answers::answer::{Answer, RunAnswer, StartAnswer};
use controller::controller::Controller;
use records::transaction::Transaction;

// A refused start hands out a controller of edition 0, which no table has.
#[unsafe(no_mangle)]
pub extern "C" fn skv_start(expected: u16, table: &[u8]) -> StartAnswer
    ensures { result ≡ start_of (starting (admitted expected table.now)) }
{
    host::running::skv_start(expected, table)
}

// The controller handed in and back, over the bytes of transactions of 4.
#[unsafe(no_mangle)]
pub extern "C" fn skv_run_bytes(
    c: Controller,
    expected: u16,
    table: &[u8],
    list: &[u8],
    count: u32,
    room: &mut [u8],
) -> RunAnswer
    ensures { RunsBack (running (λ τ. check_bytes false τ list.now) (admitted expected table.now) c (transactions_in list.now) count room.old) result room.new }
{
    host::running::skv_run_bytes(c, expected, table, list, count, room)
}

// Of transactions of 8 bytes.
#[unsafe(no_mangle)]
pub extern "C" fn skv_run_later_bytes(
    c: Controller,
    expected: u16,
    table: &[u8],
    list: &[u8],
    count: u32,
    room: &mut [u8],
) -> RunAnswer
    ensures { RunsBack (running (λ τ. check_bytes true τ list.now) (admitted expected table.now) c (later_in list.now) count room.old) result room.new }
{
    host::running::skv_run_later_bytes(c, expected, table, list, count, room)
}

// "The host lends its running controller": it is run where it lies, over a lent run of records.
#[unsafe(no_mangle)]
pub extern "C" fn skv_run(
    c: &mut Controller,
    expected: u16,
    table: &[u8],
    list: &[Transaction],
    count: u32,
    room: &mut [u8],
) -> Answer
    ensures { RunsIn (running (λ τ. check_list τ list.now) (admitted expected table.now) c.old list.now count room.old) result c.new room.new }
{
    host::running::skv_run(c, expected, table, list, count, room)
}

// One cycle.
#[unsafe(no_mangle)]
pub extern "C" fn skv_step(
    c: &mut Controller,
    expected: u16,
    table: &[u8],
    list: &[Transaction],
    room: &mut [u8],
) -> Answer
    ensures { RunsIn (running (λ τ. check_list τ list.now) (admitted expected table.now) c.old list.now 1 room.old) result c.new room.new }
{
    host::running::skv_step(c, expected, table, list, room)
}
