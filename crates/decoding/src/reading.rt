// Transactions decoded into a lent run of records.
ghost use Rattle.std.specs.Prelude.{true, false, ◌≡◌};
ghost use Rattle.lists.specs.Decode.{Decodes};
ghost use Rattle.admission.specs.Admit.{admitted};
ghost use Rattle.decoding.specs.Transactions.{reading, reading_plan};

use admission::admit::admit;
use lists::decode::{Plan, planned, store};
use records::refusal::Refusal;
use records::transaction::Transaction;

// What is answered for so many places, and how many transactions are stored. The bytes are records of 8 where `later`, else of 4.
#[tactic(auto, unfolding(crate::specs::Transactions::reading_plan))]
pub fn plan_reading(expected: u16, table: &[u8], later: bool, bytes: &[u8], places: usize) -> Plan
    ensures { result ≡ reading_plan later (admitted expected table.now) bytes.now places }
{
    match admit(expected, table) {
        Ok(t) => planned(t, later, bytes, places),
        Err(r) => Plan {
            n: 0,
            answer: Err(r),
        },
    }
}

// Numbers 1, 2, 10, 3 and 4; then the transactions from the run's start, all places beyond as they stood.
fn read_records(
    expected: u16,
    table: &[u8],
    later: bool,
    bytes: &[u8],
    list: &mut [Transaction],
) -> Result<(u16, u32), Refusal>
    ensures { Decodes (reading later (admitted expected table.now) bytes.now list.old) result list.new }
{
    let p = plan_reading(expected, table, later, bytes, list.len());
    store(later, bytes, p.n, list);
    p.answer
}

// Of records of 4 bytes.
pub fn read_transactions(
    expected: u16,
    table: &[u8],
    bytes: &[u8],
    list: &mut [Transaction],
) -> Result<(u16, u32), Refusal>
    ensures { Decodes (reading false (admitted expected table.now) bytes.now list.old) result list.new }
{
    read_records(expected, table, false, bytes, list)
}

// Of records of 8 bytes.
pub fn read_later_transactions(
    expected: u16,
    table: &[u8],
    bytes: &[u8],
    list: &mut [Transaction],
) -> Result<(u16, u32), Refusal>
    ensures { Decodes (reading true (admitted expected table.now) bytes.now list.old) result list.new }
{
    read_records(expected, table, true, bytes, list)
}
