// One record read or written: a table, a transaction, a command, a record of a capture.
ghost use Rattle.std.specs.Prelude.{◌≡◌};
ghost use Rattle.records.specs.Table.{read_table, write_table, write_group_table};
ghost use Rattle.records.specs.Transaction.{transaction, arriving, read_transaction, write_transaction, read_later, write_later};
ghost use Rattle.records.specs.Command.{kind_of, command, read_command, write_command};
ghost use Rattle.stamps.specs.Record.{capture_record, read_capture_record, write_capture_record};
ghost use Rattle.answers.specs.Answers.{of_table, of_transaction, of_command, of_capture_record};
ghost use Rattle.host.specs.Promises.{Writes};

use answers::answer::Answer;
use answers::reader::{CaptureRecordAnswer, CommandAnswer, TableAnswer, TransactionAnswer};
use host::one_record::{GroupNumbers, Numbers};

#[unsafe(no_mangle)]
pub extern "C" fn skv_read_table(bytes: &[u8]) -> TableAnswer
    ensures { result ≡ of_table (read_table bytes.now) }
{
    host::one_record::skv_read_table(bytes)
}

#[unsafe(no_mangle)]
pub extern "C" fn skv_write_table(numbers: Numbers, out: &mut [u8]) -> Answer
    ensures { Writes (write_table numbers.numbers out.old) result out.new }
{
    host::one_record::skv_write_table(numbers, out)
}

#[unsafe(no_mangle)]
pub extern "C" fn skv_write_group_table(numbers: GroupNumbers, out: &mut [u8]) -> Answer
    ensures { Writes (write_group_table numbers.numbers out.old) result out.new }
{
    host::one_record::skv_write_group_table(numbers, out)
}

#[unsafe(no_mangle)]
pub extern "C" fn skv_read_transaction(bytes: &[u8]) -> TransactionAnswer
    ensures { result ≡ of_transaction (read_transaction bytes.now) }
{
    host::one_record::skv_read_transaction(bytes)
}

#[unsafe(no_mangle)]
pub extern "C" fn skv_write_transaction(
    kind: u8,
    start: u8,
    bi: u8,
    bc: u8,
    out: &mut [u8],
) -> Answer
    ensures { Writes (write_transaction (transaction kind start bi bc) out.old) result out.new }
{
    host::one_record::skv_write_transaction(kind, start, bi, bc, out)
}

// The transaction of 8 bytes.
#[unsafe(no_mangle)]
pub extern "C" fn skv_read_later(bytes: &[u8]) -> TransactionAnswer
    ensures { result ≡ of_transaction (read_later bytes.now) }
{
    host::one_record::skv_read_later(bytes)
}

#[unsafe(no_mangle)]
pub extern "C" fn skv_write_later(
    kind: u8,
    start: u8,
    bi: u8,
    bc: u8,
    arrival: u32,
    out: &mut [u8],
) -> Answer
    ensures { Writes (write_later (arriving (transaction kind start bi bc) arrival) out.old) result out.new }
{
    host::one_record::skv_write_later(kind, start, bi, bc, arrival, out)
}

#[unsafe(no_mangle)]
pub extern "C" fn skv_read_command(bytes: &[u8]) -> CommandAnswer
    ensures { result ≡ of_command (read_command bytes.now) }
{
    host::one_record::skv_read_command(bytes)
}

#[unsafe(no_mangle)]
pub extern "C" fn skv_write_command(
    cycle: u32,
    kind: u8,
    bank: u8,
    number: u16,
    out: &mut [u8],
) -> Answer
    ensures { Writes (write_command (command cycle (kind_of kind) bank number) out.old) result out.new }
{
    host::one_record::skv_write_command(cycle, kind, bank, number, out)
}

#[unsafe(no_mangle)]
pub extern "C" fn skv_read_capture_record(bytes: &[u8]) -> CaptureRecordAnswer
    ensures { result ≡ of_capture_record (read_capture_record bytes.now) }
{
    host::one_record::skv_read_capture_record(bytes)
}

#[unsafe(no_mangle)]
pub extern "C" fn skv_write_capture_record(stamp: u16, kind: u8, bank: u8, out: &mut [u8]) -> Answer
    ensures { Writes (write_capture_record (capture_record stamp kind bank) out.old) result out.new }
{
    host::one_record::skv_write_capture_record(stamp, kind, bank, out)
}
