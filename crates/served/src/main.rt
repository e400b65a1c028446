// Asks the desk whether hostile schedules serve hostile lists, and writes a line on what it answers to each.
//
// Standard input, of which 131,072 bytes are read at most, is a sequence of cases, `[call][expected: u16][t: u8][l: u16][n: u16][t bytes][l bytes][n bytes]`.
// The t bytes are the table, the n bytes are the schedule. Call 1 takes the l bytes as transactions of 4 bytes each, call 2 as transactions of 8.
// The line is `case` for any other call, and for a case that the input cuts short, which is the last.
#![tactic(auto)]

mod cases;

use cases::{Case, Cases};
use desk::{serves_bytes, serves_later_bytes};
use prints::Refused;
use promises::numbers::rule_number;
use reads::bytes::Bytes;
use reads::read_full;
use records::refusal::Refusal;
use serves::answer::Served;
use std::io;
use std::io::Write;

fn main(rt: HostRuntime) -> io::Result<()> {
    let mut input = [0u8; 131072];
    let n = read_full(&mut rt.stdin(), &mut input)?;
    all_cases(&mut rt.stdout(), &input[..n])
}

fn all_cases<W: Write>(out: &mut W, input: &[u8]) -> io::Result<()> {
    let mut cases = Cases {
        bytes: Bytes { left: input },
    };
    for case in cases.by_ref() {
        one_case(out, case)?;
    }
    if cases.bytes.left.is_empty() {
        Ok(())
    } else {
        no_case(out)
    }
}

fn one_case<W: Write>(out: &mut W, c: Case<'_>) -> io::Result<()> {
    match c.call {
        1 => told(out, serves_bytes(c.expected, c.table, c.list, c.schedule)),
        2 => told(
            out,
            serves_later_bytes(c.expected, c.table, c.list, c.schedule),
        ),
        _ => no_case(out),
    }
}

fn no_case<W: Write>(out: &mut W) -> io::Result<()> {
    out.write_all(b"case\n")
}

fn told<W: Write>(out: &mut W, answer: Result<(u16, Served), Refusal>) -> io::Result<()> {
    match answer {
        Ok((edition, a)) => {
            write!(out, "edition {edition} ")?;
            served(out, a)
        }
        Err(r) => writeln!(out, "{}", Refused(r)),
    }
}

fn served<W: Write>(out: &mut W, a: Served) -> io::Result<()> {
    match a {
        Served::Serves => writeln!(out, "serves"),
        Served::Refused(x, record) => writeln!(out, "rule {} record {record}", rule_number(x)),
        Served::AtFault(x) => writeln!(out, "transaction {x}"),
    }
}
