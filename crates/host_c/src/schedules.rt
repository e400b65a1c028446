// The schedule of the cycle rule, with a finishing cycle for each transaction.
ghost use Rattle.std.specs.Prelude.{true, false};
ghost use Rattle.records.specs.Transaction.{transactions_in, later_in};
ghost use Rattle.lists.specs.Check.{check_list, check_bytes};
ghost use Rattle.promises.specs.Admit.{admitted};
ghost use Rattle.host.specs.Promises.{Scheduled};

use answers::answer::Answer;
use records::transaction::Transaction;

// Of transactions of 4 bytes.
#[unsafe(no_mangle)]
pub extern "C" fn skv_schedule_bytes(
    expected: u16,
    table: &[u8],
    list: &[u8],
    commands: &mut [u8],
    finishes: &mut [u32],
) -> Answer
    ensures { Scheduled (λ τ. check_bytes false τ list.now) (admitted expected table.now) (transactions_in list.now) commands.old commands.new finishes.old finishes.new result }
{
    host::schedules::skv_schedule_bytes(expected, table, list, commands, finishes)
}

// Of transactions of 8 bytes.
#[unsafe(no_mangle)]
pub extern "C" fn skv_schedule_later_bytes(
    expected: u16,
    table: &[u8],
    list: &[u8],
    commands: &mut [u8],
    finishes: &mut [u32],
) -> Answer
    ensures { Scheduled (λ τ. check_bytes true τ list.now) (admitted expected table.now) (later_in list.now) commands.old commands.new finishes.old finishes.new result }
{
    host::schedules::skv_schedule_later_bytes(expected, table, list, commands, finishes)
}

// Of a lent run of records.
#[unsafe(no_mangle)]
pub extern "C" fn skv_schedule(
    expected: u16,
    table: &[u8],
    list: &[Transaction],
    commands: &mut [u8],
    finishes: &mut [u32],
) -> Answer
    ensures { Scheduled (λ τ. check_list τ list.now) (admitted expected table.now) list.now commands.old commands.new finishes.old finishes.new result }
{
    host::schedules::skv_schedule(expected, table, list, commands, finishes)
}
