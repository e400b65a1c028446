// Does a schedule serve a list?
ghost use Rattle.std.specs.Prelude.{true, false};
ghost use Rattle.records.specs.Transaction.{transactions_in, later_in};
ghost use Rattle.lists.specs.Check.{check_list, check_bytes};
ghost use Rattle.promises.specs.Admit.{admitted};
ghost use Rattle.host.specs.Promises.{ServesSaid};

use records::transaction::Transaction;
use verdict_answers::verdict::ServesAnswer;

// Of transactions of 4 bytes.
#[unsafe(no_mangle)]
pub extern "C" fn skv_serves_bytes(
    expected: u16,
    table: &[u8],
    list: &[u8],
    schedule: &[u8],
) -> ServesAnswer
    ensures { ServesSaid (λ τ. check_bytes false τ list.now) (admitted expected table.now) (transactions_in list.now) schedule.now result }
{
    host::serving::skv_serves_bytes(expected, table, list, schedule)
}

// Of transactions of 8 bytes.
#[unsafe(no_mangle)]
pub extern "C" fn skv_serves_later_bytes(
    expected: u16,
    table: &[u8],
    list: &[u8],
    schedule: &[u8],
) -> ServesAnswer
    ensures { ServesSaid (λ τ. check_bytes true τ list.now) (admitted expected table.now) (later_in list.now) schedule.now result }
{
    host::serving::skv_serves_later_bytes(expected, table, list, schedule)
}

// Of a lent run of records.
#[unsafe(no_mangle)]
pub extern "C" fn skv_serves(
    expected: u16,
    table: &[u8],
    list: &[Transaction],
    schedule: &[u8],
) -> ServesAnswer
    ensures { ServesSaid (λ τ. check_list τ list.now) (admitted expected table.now) list.now schedule.now result }
{
    host::serving::skv_serves(expected, table, list, schedule)
}
