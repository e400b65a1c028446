// Runs examples 7 to 12 of document 01, and worked figures of table T, through the public calls. What it must print is stored beside it,
// from the figures of the paper; those of table T are the worked examples' (`rules`: `Worked`).
#![tactic(auto)]

mod judged;
mod told;

use desk::{bound, judge, read_table, schedule_bytes, write_table};
use judged::{example_1_as_pattern, example_9, example_11, table_t_judged};
use std::io;
use std::io::Write;
use tables::house::{table_a, table_b, table_c, table_t};
use told::{bounded, built, judged, read, written};

fn main(rt: HostRuntime) -> io::Result<()> {
    let out = &mut rt.stdout();
    let a = table(out, "A", table_a())?;
    with_a(out, &a)?;
    let b = table(out, "B", table_b())?;
    writeln!(out, "10 example 1 as pattern, L 39 and 38")?;
    example_1_as_pattern(out, &b, [39, 38])?;
    let c = table(out, "C", table_c())?;
    example_11(out, &c)?;
    let t = table(out, "T", table_t())?;
    with_t(out, &t)
}

fn table<W: Write>(out: &mut W, name: &str, numbers: [u16; 16]) -> io::Result<[u8; 32]> {
    writeln!(out, "table {name}")?;
    let mut bytes = [0; 32];
    written(out, write_table(numbers, &mut bytes))?;
    Ok(bytes)
}

fn with_a<W: Write>(out: &mut W, a: &[u8]) -> io::Result<()> {
    writeln!(out, "7 bounds (2,1), (1,4), (4,2), (5,1), (8,1)")?;
    for (bi, bc) in [(2, 1), (1, 4), (4, 2), (5, 1), (8, 1)] {
        bounded(out, bound(7, a, bi, bc))?;
    }
    writeln!(out, "8 example 1 as pattern, L 38 and 37")?;
    example_1_as_pattern(out, a, [38, 37])?;
    example_9(out, a)?;
    example_12(out, a)
}

fn with_t<W: Write>(out: &mut W, t: &[u8]) -> io::Result<()> {
    writeln!(out, "bounds (1,1), (2,1), (1,4), (5,1), (6,2)")?;
    for (bi, bc) in [(1, 1), (2, 1), (1, 4), (5, 1), (6, 2)] {
        bounded(out, bound(9, t, bi, bc))?;
    }
    table_t_judged(out, t)
}

fn example_12<W: Write>(out: &mut W, a: &[u8]) -> io::Result<()> {
    for (start, bi) in [(7, 1), (7, 2), (8, 1), (7, 9)] {
        writeln!(out, "12 start {start}, BI {bi}")?;
        list(out, a, &[0, start, bi, 1])?;
    }
    writeln!(out, "12 CCD 1")?;
    ccd_1(out)?;
    // Writes of bank 1, BI 1, BC 1: each of the four bytes is 1.
    writeln!(out, "12 256 transactions, then 257")?;
    let many = [1; 1028];
    list(out, a, &many[..1024])?;
    list(out, a, &many)?;
    writeln!(out, "12 empty schedule")?;
    judged(out, judge(7, a, &[]))
}

fn list<W: Write>(out: &mut W, table: &[u8], bytes: &[u8]) -> io::Result<()> {
    let mut commands = [0; 65536];
    let mut finishes = [0; 256];
    built(
        out,
        schedule_bytes(7, table, bytes, &mut commands, &mut finishes),
    )
}

// Table A as bytes, but for CCD.
fn ccd_1<W: Write>(out: &mut W) -> io::Result<()> {
    let bytes = [
        7, 0, 8, 0, 4, 0, 1, 0, 10, 0, 10, 0, 28, 0, 38, 0, 6, 0, 32, 0, 10, 0, 8, 0, 6, 0, 12, 0,
        6, 0, 0, 0,
    ];
    read(out, read_table(&bytes))
}
