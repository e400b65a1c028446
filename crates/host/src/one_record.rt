// One record read or written: a table, a transaction, a command, a record of a capture.
ghost use Rattle.std.specs.Prelude.{◌≡◌};
ghost use Rattle.records.specs.Table.{read_table, write_table, write_group_table};
ghost use Rattle.records.specs.Transaction.{transaction, arriving, read_transaction, write_transaction, read_later, write_later};
ghost use Rattle.records.specs.Command.{kind_of, command, read_command, write_command};
ghost use Rattle.stamps.specs.Record.{capture_record, read_capture_record, write_capture_record};
ghost use Rattle.answers.specs.Answers.{of_table, of_transaction, of_command, of_capture_record};
ghost use Rattle.host.specs.Promises.{Writes};

use answers::answer::{Answer, of_written};
use answers::reader::{
    CaptureRecordAnswer, CommandAnswer, TableAnswer, TransactionAnswer, of_capture_record,
    of_command, of_table, of_transaction,
};
use commands::command::{read_command, write_command};
use records::transaction::Transaction;
use stamps::one_record::{CaptureRecord, read_capture_record, write_capture_record};
use tables::group_table::write_group_table;
use tables::table::{read_table, write_table};
use transactions::later::{read_later, write_later};
use transactions::transaction::{read_transaction, write_transaction};

// The sixteen numbers of a table of 32 bytes.
#[repr(C)]
#[derive(Clone, Copy)]
pub struct Numbers {
    pub numbers: [u16; 16],
}

// The twenty numbers of a table of 40 bytes.
#[repr(C)]
#[derive(Clone, Copy)]
pub struct GroupNumbers {
    pub numbers: [u16; 20],
}

pub fn skv_read_table(bytes: &[u8]) -> TableAnswer
    ensures { result ≡ of_table (read_table bytes.now) }
{
    of_table(read_table(bytes))
}

pub fn skv_write_table(numbers: Numbers, out: &mut [u8]) -> Answer
    ensures { Writes (write_table numbers.numbers out.old) result out.new }
{
    let n = numbers.numbers;
    of_written(write_table(n, out))
}

pub fn skv_write_group_table(numbers: GroupNumbers, out: &mut [u8]) -> Answer
    ensures { Writes (write_group_table numbers.numbers out.old) result out.new }
{
    let n = numbers.numbers;
    of_written(write_group_table(n, out))
}

pub fn skv_read_transaction(bytes: &[u8]) -> TransactionAnswer
    ensures { result ≡ of_transaction (read_transaction bytes.now) }
{
    of_transaction(read_transaction(bytes))
}

pub fn skv_write_transaction(kind: u8, start: u8, bi: u8, bc: u8, out: &mut [u8]) -> Answer
    ensures { Writes (write_transaction (transaction kind start bi bc) out.old) result out.new }
{
    let x = Transaction {
        kind,
        start,
        bi,
        bc,
        arrival: 0,
    };
    of_written(write_transaction(x, out))
}

// The transaction of 8 bytes.
pub fn skv_read_later(bytes: &[u8]) -> TransactionAnswer
    ensures { result ≡ of_transaction (read_later bytes.now) }
{
    of_transaction(read_later(bytes))
}

pub fn skv_write_later(kind: u8, start: u8, bi: u8, bc: u8, arrival: u32, out: &mut [u8]) -> Answer
    ensures { Writes (write_later (arriving (transaction kind start bi bc) arrival) out.old) result out.new }
{
    let x = Transaction {
        kind,
        start,
        bi,
        bc,
        arrival,
    };
    of_written(write_later(x, out))
}

pub fn skv_read_command(bytes: &[u8]) -> CommandAnswer
    ensures { result ≡ of_command (read_command bytes.now) }
{
    of_command(read_command(bytes))
}

pub fn skv_write_command(cycle: u32, kind: u8, bank: u8, number: u16, out: &mut [u8]) -> Answer
    ensures { Writes (write_command (command cycle (kind_of kind) bank number) out.old) result out.new }
{
    of_written(write_command(cycle, kind, bank, number, out))
}

pub fn skv_read_capture_record(bytes: &[u8]) -> CaptureRecordAnswer
    ensures { result ≡ of_capture_record (read_capture_record bytes.now) }
{
    of_capture_record(read_capture_record(bytes))
}

pub fn skv_write_capture_record(stamp: u16, kind: u8, bank: u8, out: &mut [u8]) -> Answer
    ensures { Writes (write_capture_record (capture_record stamp kind bank) out.old) result out.new }
{
    let x = CaptureRecord { stamp, kind, bank };
    of_written(write_capture_record(x, out))
}
