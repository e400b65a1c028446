// The host's judge of captures, and its shortest patterns.
use host::patterns::skv_shortest_pattern;
use host::tracing::skv_judge_capture;
use prints::InHex;
use std::io;
use std::io::Write;

// Room for three commands, and a byte more.
pub(crate) fn captures<W: Write>(
    out: &mut W,
    expected: u16,
    table: &[u8],
    bytes: &[u8],
) -> io::Result<()> {
    let mut commands = [9; 25];
    let a = skv_judge_capture(expected, table, bytes, &mut commands);
    writeln!(
        out,
        "skv_judge_capture {} {} {} {} {} {} {}",
        a.refused,
        a.position,
        a.edition,
        a.count,
        a.rule,
        a.record,
        InHex(&commands)
    )
}

// What is asked of the shortest pattern.
#[derive(Clone, Copy)]
pub(crate) struct Question {
    pub kind: u8,
    pub bi: u8,
    pub bc: u8,
    pub most: u32,
}

// Room for six records, and a byte more.
pub(crate) fn found<W: Write>(
    out: &mut W,
    expected: u16,
    table: &[u8],
    q: Question,
) -> io::Result<()> {
    let mut pattern = [9; 49];
    let a = skv_shortest_pattern(expected, table, q.kind, q.bi, q.bc, q.most, &mut pattern);
    writeln!(
        out,
        "skv_shortest_pattern {} {} {} {} {} {}",
        a.refused,
        a.position,
        a.edition,
        a.length,
        a.count,
        InHex(&pattern)
    )
}
