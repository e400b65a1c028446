// Does a schedule serve a list?
ghost use Rattle.std.specs.Prelude.{true, false};
ghost use Rattle.records.specs.Transaction.{transactions_in, later_in};
ghost use Rattle.lists.specs.Check.{check_list, check_bytes};
ghost use Rattle.promises.specs.Admit.{admitted};
ghost use Rattle.promises.specs.Serving.{Serving};

use admission::admit::admit_lent;
use packing::packed::gather;
use records::refusal::Refusal;
use records::transaction::Transaction;
use serves::answer::Served;
use service::serving::{serves_held, serves_records};

// Numbers 1, 2, 10, 3, 4 and 7; then whether the schedule serves a lent run of records.
pub fn serves(
    expected: u16,
    table: &[u8],
    list: &[Transaction],
    schedule: &[u8],
) -> Result<(u16, Served), Refusal>
    ensures { Serving (λ τ. check_list τ list.now) (admitted expected table.now) list.now schedule.now result }
{
    let w = admit_lent(expected, table, list.len());
    let bytes = gather(list, w.n);
    serves_held(w, bytes, schedule)
}

// Of records of 4 bytes.
pub fn serves_bytes(
    expected: u16,
    table: &[u8],
    list: &[u8],
    schedule: &[u8],
) -> Result<(u16, Served), Refusal>
    ensures { Serving (λ τ. check_bytes false τ list.now) (admitted expected table.now) (transactions_in list.now) schedule.now result }
{
    serves_records(expected, table, false, list, schedule)
}

// Of records of 8 bytes.
pub fn serves_later_bytes(
    expected: u16,
    table: &[u8],
    list: &[u8],
    schedule: &[u8],
) -> Result<(u16, Served), Refusal>
    ensures { Serving (λ τ. check_bytes true τ list.now) (admitted expected table.now) (later_in list.now) schedule.now result }
{
    serves_records(expected, table, true, list, schedule)
}
