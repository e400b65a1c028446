// The readers of transactions, of the desk and of the host: the list that is lent lies in a local here.
use crate::told::{Numbers, Refused, Transactions};
use answers::answer::Answer;
use desk::{read_later_transactions, read_transactions};
use host::reading::{skv_read_later_transactions, skv_read_transactions};
use records::refusal::Refusal;
use records::transaction::Transaction;
use std::io;
use std::io::Write;

pub(crate) fn transactions_read<W: Write>(
    out: &mut W,
    expected: u16,
    table: &[u8],
    bytes: &[u8],
    list: [Transaction; 3],
) -> io::Result<()> {
    read(
        out,
        "read_transactions",
        list,
        |places: &mut [Transaction]| { read_transactions(expected, table, bytes, places) },
    )?;
    host_read(
        out,
        "skv_read_transactions",
        list,
        |places: &mut [Transaction]| { skv_read_transactions(expected, table, bytes, places) },
    )?;
    read(
        out,
        "read_later_transactions",
        list,
        |places: &mut [Transaction]| { read_later_transactions(expected, table, bytes, places) },
    )?;
    host_read(
        out,
        "skv_read_later_transactions",
        list,
        |places: &mut [Transaction]| {
            skv_read_later_transactions(expected, table, bytes, places)
        },
    )
}

fn read<W: Write, F: FnOnce(&mut [Transaction]) -> Result<(u16, u32), Refusal>>(
    out: &mut W,
    name: &str,
    mut places: [Transaction; 3],
    read: F,
) -> io::Result<()>
    requires { F.IsAlwaysCallable read }
{
    match read(&mut places) {
        Ok((edition, n)) => write!(out, "{name} {edition} {n}")?,
        Err(r) => write!(out, "{name} {}", Refused(r))?,
    }
    writeln!(out, "{}", Transactions(&places))
}

fn host_read<W: Write, F: FnOnce(&mut [Transaction]) -> Answer>(
    out: &mut W,
    name: &str,
    mut places: [Transaction; 3],
    read: F,
) -> io::Result<()>
    requires { F.IsAlwaysCallable read }
{
    let answer = read(&mut places);
    writeln!(out, "{name} {}{}", Numbers(answer), Transactions(&places))
}
