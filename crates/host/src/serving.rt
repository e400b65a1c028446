// Does a schedule serve a list?
ghost use Rattle.std.specs.Prelude.{true, false};
ghost use Rattle.records.specs.Transaction.{transactions_in, later_in};
ghost use Rattle.lists.specs.Check.{check_list, check_bytes};
ghost use Rattle.promises.specs.Admit.{admitted};
ghost use Rattle.host.specs.Promises.{ServesSaid};

use desk::serves;
use judgements::serving::{serves_bytes, serves_later_bytes};
use records::transaction::Transaction;
use verdict_answers::verdict::{ServesAnswer, serves_of};

// Of transactions of 4 bytes.
pub fn skv_serves_bytes(expected: u16, table: &[u8], list: &[u8], schedule: &[u8]) -> ServesAnswer
    ensures { ServesSaid (λ τ. check_bytes false τ list.now) (admitted expected table.now) (transactions_in list.now) schedule.now result }
{
    serves_of(serves_bytes(expected, table, list, schedule))
}

// Of transactions of 8 bytes.
pub fn skv_serves_later_bytes(
    expected: u16,
    table: &[u8],
    list: &[u8],
    schedule: &[u8],
) -> ServesAnswer
    ensures { ServesSaid (λ τ. check_bytes true τ list.now) (admitted expected table.now) (later_in list.now) schedule.now result }
{
    serves_of(serves_later_bytes(expected, table, list, schedule))
}

// Of a lent run of records.
pub fn skv_serves(
    expected: u16,
    table: &[u8],
    list: &[Transaction],
    schedule: &[u8],
) -> ServesAnswer
    ensures { ServesSaid (λ τ. check_list τ list.now) (admitted expected table.now) list.now schedule.now result }
{
    serves_of(serves(expected, table, list, schedule))
}
