// What the calls answer, a line each.
use prints::Refused;
use promises::numbers::rule_number;
use records::refusal::Refusal;
use records::table::Table;
use rules::verdict::{PatternVerdict, Verdict};
use std::io;
use std::io::Write;

pub(crate) fn written<W: Write>(out: &mut W, answer: Result<u16, Refusal>) -> io::Result<()> {
    match answer {
        Ok(edition) => writeln!(out, "written, edition {edition}"),
        Err(r) => writeln!(out, "{}", Refused(r)),
    }
}

pub(crate) fn read<W: Write>(out: &mut W, answer: Result<Table, Refusal>) -> io::Result<()> {
    match answer {
        Ok(t) => writeln!(out, "edition {}", t.edition),
        Err(r) => writeln!(out, "{}", Refused(r)),
    }
}

pub(crate) fn bounded<W: Write>(
    out: &mut W,
    answer: Result<(u16, u32), Refusal>,
) -> io::Result<()> {
    match answer {
        Ok((edition, cycles)) => writeln!(out, "edition {edition} bound {cycles}"),
        Err(r) => writeln!(out, "{}", Refused(r)),
    }
}

pub(crate) fn built<W: Write>(
    out: &mut W,
    answer: Result<(u16, usize), Refusal>,
) -> io::Result<()> {
    match answer {
        Ok((edition, commands)) => { writeln!(out, "edition {edition} commands {commands}") }
        Err(r) => writeln!(out, "{}", Refused(r)),
    }
}

pub(crate) fn judged<W: Write>(
    out: &mut W,
    answer: Result<(u16, Verdict), Refusal>,
) -> io::Result<()> {
    match answer {
        Ok((edition, Verdict::Accepted)) => writeln!(out, "edition {edition} accepted"),
        Ok((edition, Verdict::Refused(x, record))) => {
            let rule = rule_number(x);
            writeln!(out, "edition {edition} record {record} rule {rule}")
        }
        Err(r) => writeln!(out, "{}", Refused(r)),
    }
}

pub(crate) fn repeated<W: Write>(
    out: &mut W,
    answer: Result<(u16, PatternVerdict), Refusal>,
) -> io::Result<()> {
    match answer {
        Ok((edition, PatternVerdict::Accepted)) => { writeln!(out, "edition {edition} accepted") }
        Ok((edition, PatternVerdict::Refused(x, copy, record))) => {
            let rule = rule_number(x);
            writeln!(
                out,
                "edition {edition} copy {copy} record {record} rule {rule}"
            )
        }
        Err(r) => writeln!(out, "{}", Refused(r)),
    }
}
