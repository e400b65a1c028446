// Hands hostile lists, states and buffers to the calls that build, run and tell the bound, and writes lines on what each answers.
//
// Standard input, of which 196,608 bytes are read at most, is a sequence of cases, `[call][expected: u16][t: u8]` and then, for call 1, a build,
// `[room: u16][slots: u16][n: u16][t bytes][n bytes]`; for call 2, a run, `[count: u32][room: u16][n: u16][state: 342 bytes][t bytes][n bytes]`;
// for call 3, a bound, `[BI][BC][t bytes]`. The t bytes are the table, the rooms are in bytes, the n bytes are the transactions, of 4 bytes each;
// calls 4 and 5 are a build and a run of transactions of 8 bytes. The line is `case` for any other call, and for a case that the input cuts
// short: nothing after it is read.
#![tactic(auto)]

mod build;
mod cases;
mod run;
mod state;
mod told;

use cases::{Bound, Case, Cases};
use desk::bound;
use prints::Refused;
use reads::bytes::Bytes;
use reads::read_full;
use std::io;
use std::io::Write;

fn main(rt: HostRuntime) -> io::Result<()> {
    let mut input = [0u8; 196608];
    let n = read_full(&mut rt.stdin(), &mut input)?;
    all_cases(&mut rt.stdout(), &input[..n])
}

fn all_cases<W: Write>(out: &mut W, input: &[u8]) -> io::Result<()> {
    let mut cases = Cases {
        bytes: Bytes { left: input },
    };
    for case in cases.by_ref() {
        match case {
            Case::Build(later, c) => build::lines(out, later, c)?,
            Case::Run(later, c) => run::lines(out, later, c)?,
            Case::Bound(c) => bound_line(out, c)?,
        }
    }
    if cases.bytes.left.is_empty() {
        Ok(())
    } else {
        out.write_all(b"case\n")
    }
}

fn bound_line<W: Write>(out: &mut W, c: Bound<'_>) -> io::Result<()> {
    match bound(c.expected, c.table, c.bi, c.bc) {
        Ok((edition, bound)) => writeln!(out, "bound edition {edition} {bound}"),
        Err(r) => writeln!(out, "bound {}", Refused(r)),
    }
}
