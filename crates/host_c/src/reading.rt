// Transactions decoded into a lent run of records.
ghost use Rattle.std.specs.Prelude.{true, false};
ghost use Rattle.promises.specs.Admit.{admitted};
ghost use Rattle.promises.specs.Transactions.{reading};
ghost use Rattle.host.specs.Promises.{ReadsInto};

use answers::answer::Answer;
use records::transaction::Transaction;

// Those of 4 bytes. The transactions go to the run's start.
#[unsafe(no_mangle)]
pub extern "C" fn skv_read_transactions(
    expected: u16,
    table: &[u8],
    bytes: &[u8],
    list: &mut [Transaction],
) -> Answer
    ensures { ReadsInto (reading false (admitted expected table.now) bytes.now list.old) result list.new }
{
    host::reading::skv_read_transactions(expected, table, bytes, list)
}

// Those of 8 bytes.
#[unsafe(no_mangle)]
pub extern "C" fn skv_read_later_transactions(
    expected: u16,
    table: &[u8],
    bytes: &[u8],
    list: &mut [Transaction],
) -> Answer
    ensures { ReadsInto (reading true (admitted expected table.now) bytes.now list.old) result list.new }
{
    host::reading::skv_read_later_transactions(expected, table, bytes, list)
}
