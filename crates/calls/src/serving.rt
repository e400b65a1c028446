// Does a schedule serve a list?
use crate::schedules::built;
use crate::told::Refused;
use desk::{schedule, serves};
use host::serving::{skv_serves, skv_serves_bytes, skv_serves_later_bytes};
use promises::numbers::rule_number;
use records::refusal::Refusal;
use records::transaction::Transaction;
use serves::answer::Served;
use std::io;
use std::io::Write;
use verdict_answers::verdict::ServesAnswer as HostServesAnswer;

// The four calls, on a list, the bytes of another, and a schedule.
pub(crate) fn asked<W: Write>(
    out: &mut W,
    expected: u16,
    table: &[u8],
    list: &[Transaction],
    bytes: &[u8],
    commands: &[u8],
) -> io::Result<()> {
    told(out, serves(expected, table, list, commands))?;
    host_told(
        out,
        "skv_serves",
        skv_serves(expected, table, list, commands),
    )?;
    host_told(
        out,
        "skv_serves_bytes",
        skv_serves_bytes(expected, table, bytes, commands),
    )?;
    host_told(
        out,
        "skv_serves_later_bytes",
        skv_serves_later_bytes(expected, table, bytes, commands),
    )
}

// The schedule of one list, of five commands, is asked about with other lists.
pub(crate) fn asked_built<W: Write>(
    out: &mut W,
    table: &[u8],
    one: &[Transaction],
    list: &[Transaction],
    bytes: &[u8],
) -> io::Result<()> {
    let mut commands = [0; 40];
    let mut finishes = [9; 3];
    built(out, schedule(7, table, one, &mut commands, &mut finishes))?;
    out.write_all(b"\n")?;
    asked(out, 7, table, list, bytes, &commands)
}

fn told<W: Write>(out: &mut W, a: Result<(u16, Served), Refusal>) -> io::Result<()> {
    match a {
        Ok((edition, said)) => {
            write!(out, "serves {edition}")?;
            served(out, said)
        }
        Err(r) => writeln!(out, "serves {}", Refused(r)),
    }
}

fn served<W: Write>(out: &mut W, a: Served) -> io::Result<()> {
    match a {
        Served::Serves => out.write_all(b"\n"),
        Served::Refused(x, i) => writeln!(out, " {} {i}", rule_number(x)),
        Served::AtFault(x) => writeln!(out, " {x}"),
    }
}

fn host_told<W: Write>(out: &mut W, name: &str, a: HostServesAnswer) -> io::Result<()> {
    writeln!(
        out,
        "{name} {} {} {} {} {} {} {}",
        a.refused, a.position, a.edition, a.serves, a.rule, a.record, a.transaction
    )
}
