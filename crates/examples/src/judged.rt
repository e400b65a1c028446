// Examples 8 to 11, patterns and a schedule, and their like of table T.
use crate::told::{built, judged, repeated};
use desk::{judge, judge_pattern, schedule_bytes};
use std::io;
use std::io::Write;

// The schedule of a list, in a room of its length and with a place for each transaction, is judged as pattern of two lengths.
fn as_pattern<W: Write, const N: usize, const M: usize>(
    out: &mut W,
    edition: u16,
    table: &[u8],
    list: &[u8],
    mut room: [u8; N],
    mut finishes: [u32; M],
    lengths: [u32; 2],
) -> io::Result<()> {
    built(
        out,
        schedule_bytes(edition, table, list, &mut room, &mut finishes),
    )?;
    for length in lengths {
        repeated(out, judge_pattern(edition, table, &room, length))?;
    }
    Ok(())
}

pub(crate) fn example_1_as_pattern<W: Write>(
    out: &mut W,
    table: &[u8],
    lengths: [u32; 2],
) -> io::Result<()> {
    as_pattern(out, 7, table, &[0, 0, 1, 1], [0; 16], [0; 1], lengths)
}

pub(crate) fn example_9<W: Write>(out: &mut W, a: &[u8]) -> io::Result<()> {
    writeln!(out, "9 example 5 as pattern, L 39 and 38")?;
    as_pattern(out, 7, a, &[0, 0, 4, 2], [0; 96], [0; 1], [39, 38])
}

pub(crate) fn example_11<W: Write>(out: &mut W, c: &[u8]) -> io::Result<()> {
    writeln!(out, "11 ACT 0, WR 10, RDA 28, then ACT 44, and ACT 43")?;
    for (act, rda) in [(44, 54), (43, 53)] {
        wr_rda_act(out, 7, c, 10, act, rda)?;
    }
    Ok(())
}

// Bank 0: ACT 0, WR, RDA 28, then ACT, RDA. The first byte of each record is its cycle, the fifth its kind.
fn wr_rda_act<W: Write>(
    out: &mut W,
    edition: u16,
    table: &[u8],
    wr: u8,
    act: u8,
    rda: u8,
) -> io::Result<()> {
    let mut bytes = [0; 40];
    bytes[8] = wr;
    bytes[12] = 3;
    bytes[16] = 28;
    bytes[20] = 2;
    bytes[24] = act;
    bytes[32] = rda;
    bytes[36] = 2;
    judged(out, judge(edition, table, &bytes))
}

pub(crate) fn table_t_judged<W: Write>(out: &mut W, t: &[u8]) -> io::Result<()> {
    writeln!(out, "ACT 0, WR 11, RDA 28, then ACT 51, and ACT 50")?;
    for (act, rda) in [(51, 62), (50, 61)] {
        wr_rda_act(out, 9, t, 11, act, rda)?;
    }
    writeln!(
        out,
        "read of bank 0, write of bank 1 as pattern, L 54 and 53"
    )?;
    as_pattern(
        out,
        9,
        t,
        &[0, 0, 1, 1, 1, 1, 1, 1],
        [0; 32],
        [0; 2],
        [54, 53],
    )
}
