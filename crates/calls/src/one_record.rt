// The host's readers and writers of one record.
use crate::told::Numbers;
use answers::answer::Answer;
use answers::reader::TransactionAnswer;
use host::one_record::{
    GroupNumbers, Numbers as TableNumbers, skv_read_capture_record, skv_read_command,
    skv_read_later, skv_read_table, skv_read_transaction, skv_write_capture_record,
    skv_write_command, skv_write_group_table, skv_write_later, skv_write_table,
    skv_write_transaction,
};
use prints::{InHex, Row};
use records::transaction::Transaction;
use std::io;
use std::io::Write;

// A writer's line, with all of the room; answers the room.
fn written<W: Write, const N: usize, F: FnOnce(&mut [u8]) -> Answer>(
    out: &mut W,
    name: &str,
    mut room: [u8; N],
    write: F,
) -> io::Result<[u8; N]>
    requires { F.IsAlwaysCallable write }
{
    let answer = write(&mut room);
    writeln!(out, "{name} {} {}", Numbers(answer), InHex(&room))?;
    Ok(room)
}

pub(crate) fn table_written<W: Write>(out: &mut W, numbers: [u16; 16]) -> io::Result<[u8; 32]> {
    written(out, "skv_write_table", [0; 32], |room: &mut [u8]| {
        skv_write_table(TableNumbers { numbers }, room)
    })
}

pub(crate) fn group_table_written<W: Write>(
    out: &mut W,
    numbers: [u16; 20],
) -> io::Result<[u8; 40]> {
    written(out, "skv_write_group_table", [0; 40], |room: &mut [u8]| {
        skv_write_group_table(GroupNumbers { numbers }, room)
    })
}

pub(crate) fn records_read<W: Write>(out: &mut W, table: &[u8], bytes: &[u8]) -> io::Result<()> {
    let a = skv_read_table(table);
    writeln!(
        out,
        "skv_read_table {} {} {}{}",
        a.refused,
        a.position,
        a.edition,
        Row(&a.numbers)
    )?;
    transaction_read(out, "skv_read_transaction", skv_read_transaction(bytes))?;
    transaction_read(out, "skv_read_later", skv_read_later(bytes))?;
    let a = skv_read_command(bytes);
    writeln!(
        out,
        "skv_read_command {} {} {} {} {} {} {}",
        a.refused, a.position, a.edition, a.cycle, a.kind, a.bank, a.number
    )
}

fn transaction_read<W: Write>(out: &mut W, name: &str, a: TransactionAnswer) -> io::Result<()> {
    writeln!(
        out,
        "{name} {} {} {} {} {} {} {} {}",
        a.refused, a.position, a.edition, a.kind, a.start, a.bi, a.bc, a.arrival
    )
}

// A command's values are a transaction's, for want of others.
pub(crate) fn records_written<W: Write>(out: &mut W, cycle: u32, x: Transaction) -> io::Result<()> {
    written(out, "skv_write_transaction", [255; 4], |room: &mut [u8]| {
        skv_write_transaction(x.kind, x.start, x.bi, x.bc, room)
    })?;
    written(out, "skv_write_later", [255; 8], |room: &mut [u8]| {
        skv_write_later(x.kind, x.start, x.bi, x.bc, x.arrival, room)
    })?;
    written(out, "skv_write_command", [255; 9], |room: &mut [u8]| {
        skv_write_command(cycle, x.kind, x.start, u16::from(x.bi), room)
    })?;
    Ok(())
}

pub(crate) fn capture_record_read<W: Write>(out: &mut W, bytes: &[u8]) -> io::Result<()> {
    let a = skv_read_capture_record(bytes);
    writeln!(
        out,
        "skv_read_capture_record {} {} {} {} {} {}",
        a.refused, a.position, a.edition, a.stamp, a.kind, a.bank
    )
}

// The values are an edition and a transaction's, for want of others.
pub(crate) fn capture_record_written<W: Write>(
    out: &mut W,
    stamp: u16,
    x: Transaction,
) -> io::Result<()> {
    written(
        out,
        "skv_write_capture_record",
        [255; 5],
        |room: &mut [u8]| { skv_write_capture_record(stamp, x.kind, x.start, room) },
    )?;
    Ok(())
}
