// Hands hostile schedules and patterns to the judges of the desk, and writes a line on what each answers.
//
// Standard input, of which 131,072 bytes are read at most, is a sequence of cases, `[call][expected: u16][length: u32][t: u8][n: u16][t bytes][n bytes]`.
// The t bytes are the table. Call 1 judges the n bytes as a schedule and has no use for the length, call 2 judges them as a pattern of that
// length. The line is `case` for any other call, and for a case that the input cuts short, which is the last.
#![tactic(auto)]

mod cases;

use cases::{Case, Cases};
use desk::{judge, judge_pattern};
use prints::Refused;
use promises::numbers::rule_number;
use reads::bytes::Bytes;
use reads::read_full;
use records::refusal::Refusal;
use rules::verdict::{PatternVerdict, Verdict};
use std::io;
use std::io::Write;

fn main(rt: HostRuntime) -> io::Result<()> {
    let mut input = [0u8; 131072];
    let n = read_full(&mut rt.stdin(), &mut input)?;
    all_cases(&mut rt.stdout(), &input[..n])
}

fn all_cases<W: Write>(out: &mut W, input: &[u8]) -> io::Result<()> {
    let mut cases = Cases {
        bytes: Bytes { left: input },
    };
    for case in cases.by_ref() {
        one_case(out, case)?;
    }
    if cases.bytes.left.is_empty() {
        Ok(())
    } else {
        no_case(out)
    }
}

fn one_case<W: Write>(out: &mut W, c: Case<'_>) -> io::Result<()> {
    match c.call {
        1 => judged(out, judge(c.expected, c.table, c.schedule)),
        2 => pattern_judged(
            out,
            judge_pattern(c.expected, c.table, c.schedule, c.length),
        ),
        _ => no_case(out),
    }
}

fn no_case<W: Write>(out: &mut W) -> io::Result<()> {
    out.write_all(b"case\n")
}

fn judged<W: Write>(out: &mut W, answer: Result<(u16, Verdict), Refusal>) -> io::Result<()> {
    match answer {
        Ok((edition, Verdict::Accepted)) => { writeln!(out, "judge edition {edition} accepted") }
        Ok((edition, Verdict::Refused(x, record))) => {
            let rule = rule_number(x);
            writeln!(out, "judge edition {edition} rule {rule} record {record}")
        }
        Err(r) => writeln!(out, "judge {}", Refused(r)),
    }
}

fn pattern_judged<W: Write>(
    out: &mut W,
    answer: Result<(u16, PatternVerdict), Refusal>,
) -> io::Result<()> {
    match answer {
        Ok((edition, PatternVerdict::Accepted)) => {
            writeln!(out, "pattern edition {edition} accepted")
        }
        Ok((edition, PatternVerdict::Refused(x, copy, record))) => {
            let rule = rule_number(x);
            writeln!(
                out,
                "pattern edition {edition} rule {rule} copy {copy} record {record}"
            )
        }
        Err(r) => writeln!(out, "pattern {}", Refused(r)),
    }
}
