// Hands hostile bytes to the readers and the writers of the desk, and writes a line on what each answers.
//
// Standard input, of which 65,536 bytes are read at most, is a sequence of cases, `[call][n][n bytes]`. Calls 1, 3, 5 and 8 read a table,
// a transaction of 4 bytes, a command and a transaction of 8 bytes from the n bytes. Calls 2, 4, 6, 7 and 9 write a table of 32 bytes, a
// transaction of 4, a command, a table of 40 bytes and a transaction of 8: the values come first, in 32, 4, 8, 40 or 8 bytes, and the rest is
// the buffer. The line is `case` for any other call, for a write whose bytes are too few for the values or leave more than 64 for the buffer,
// and for a case that the input cuts short, which is the last.
#![tactic(auto)]

mod cases;
mod told;

ghost use Rattle.std.specs.Prelude.{◌*◌, ◌≤◌, length};

use cases::{Case, Cases};
use desk::{
    read_command, read_later, read_table, read_transaction, write_command, write_group_table,
    write_later, write_table, write_transaction,
};
use prints::{Refused, Row};
use reads::bytes::Bytes;
use reads::read_full;
use records::command::Command;
use records::little::{num_32_at, num_at};
use records::refusal::Refusal;
use records::table::Table;
use records::transaction::Transaction;
use std::io;
use std::io::Write;
use told::{Kept, Values, numbers_of};
use transactions::later::later_at;
use transactions::transaction::transaction_at;

fn main(rt: HostRuntime) -> io::Result<()> {
    let mut input = [0u8; 65536];
    let n = read_full(&mut rt.stdin(), &mut input)?;
    all_cases(&mut rt.stdout(), &input[..n])
}

fn all_cases<W: Write>(out: &mut W, input: &[u8]) -> io::Result<()> {
    let mut cases = Cases {
        bytes: Bytes { left: input },
    };
    for case in cases.by_ref() {
        one_case(out, case)?;
    }
    if cases.bytes.left.is_empty() {
        Ok(())
    } else {
        no_case(out)
    }
}

fn one_case<W: Write>(out: &mut W, case: Case<'_>) -> io::Result<()> {
    let s = case.bytes;
    match case.call {
        1 => table_line(out, read_table(s)),
        2 => {
            let Some((v, rest)) = s.split_first_chunk::<32>() else {
                return no_case(out);
            };
            let values = numbers_at(v);
            write_line(out, "write_table", rest, |room: &mut [u8]| {
                write_table(values, room)
            })
        }
        3 => transaction_line(out, read_transaction(s)),
        4 => {
            let Some((v, rest)) = s.split_first_chunk::<4>() else {
                return no_case(out);
            };
            let x = transaction_at(v, 0);
            write_line(out, "write_transaction", rest, |room: &mut [u8]| {
                write_transaction(x, room)
            })
        }
        5 => command_line(out, read_command(s)),
        6 => {
            let Some((v, rest)) = s.split_first_chunk::<8>() else {
                return no_case(out);
            };
            let cycle = num_32_at(v, 0);
            let (kind, bank) = (v[4], v[5]);
            let number = num_at(v, 6);
            write_line(out, "write_command", rest, |room: &mut [u8]| {
                write_command(cycle, kind, bank, number, room)
            })
        }
        7 => {
            let Some((v, rest)) = s.split_first_chunk::<40>() else {
                return no_case(out);
            };
            let values = numbers_at(v);
            write_line(out, "write_group_table", rest, |room: &mut [u8]| {
                write_group_table(values, room)
            })
        }
        8 => later_line(out, read_later(s)),
        9 => {
            let Some((v, rest)) = s.split_first_chunk::<8>() else {
                return no_case(out);
            };
            let x = later_at(v, 0);
            write_line(out, "write_later", rest, |room: &mut [u8]| {
                write_later(x, room)
            })
        }
        _ => no_case(out),
    }
}

fn no_case<W: Write>(out: &mut W) -> io::Result<()> {
    out.write_all(b"case\n")
}

fn table_line<W: Write>(out: &mut W, answer: Result<Table, Refusal>) -> io::Result<()> {
    match answer {
        Ok(t) => writeln!(out, "read_table{}", Row(&numbers_of(t))),
        Err(r) => writeln!(out, "read_table {}", Refused(r)),
    }
}

fn transaction_line<W: Write>(out: &mut W, answer: Result<Transaction, Refusal>) -> io::Result<()> {
    match answer {
        Ok(x) => writeln!(out, "read_transaction {}", Values(x)),
        Err(r) => writeln!(out, "read_transaction {}", Refused(r)),
    }
}

fn later_line<W: Write>(out: &mut W, answer: Result<Transaction, Refusal>) -> io::Result<()> {
    match answer {
        Ok(x) => writeln!(out, "read_later {} {}", Values(x), x.arrival),
        Err(r) => writeln!(out, "read_later {}", Refused(r)),
    }
}

fn command_line<W: Write>(out: &mut W, answer: Result<Command, Refusal>) -> io::Result<()> {
    match answer {
        Ok(c) => writeln!(
            out,
            "read_command {} {} {} {}",
            c.cycle,
            u8::from(c.kind),
            c.bank,
            c.number
        ),
        Err(r) => writeln!(out, "read_command {}", Refused(r)),
    }
}

// What was written over the bytes is shown with all of them.
fn write_line<W: Write, F: FnOnce(&mut [u8]) -> Result<u16, Refusal>>(
    out: &mut W,
    name: &str,
    bytes: &[u8],
    write: F,
) -> io::Result<()>
    requires { F.IsAlwaysCallable write }
{
    if 64 < bytes.len() {
        return no_case(out);
    }
    let mut space = [0u8; 64];
    let room = &mut space[..bytes.len()];
    room.copy_from_slice(bytes);
    match write(room) {
        Ok(edition) => writeln!(out, "{name} edition {edition} {}", Kept(room)),
        Err(r) => writeln!(out, "{name} {} {}", Refused(r), Kept(room)),
    }
}

// The numbers of a table, in range or not.
fn numbers_at<const N: usize>(s: &[u8]) -> [u16; N]
    requires { 2 * N ≤ length s.now }
{
    let mut numbers = [0; N];
    for k in 0..N {
        numbers[k] = num_at(s, 2 * k);
    }
    numbers
}
