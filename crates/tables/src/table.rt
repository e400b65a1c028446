// The table: sixteen 16-bit numbers in 32 bytes, or twenty in 40.
ghost use Rattle.std.specs.Prelude.{◌≡◌, ◌*◌, ◌≤◌, length};
ghost use Rattle.records.specs.Told.{over, Leaves};
ghost use Rattle.records.specs.Little.{bytes16};
ghost use Rattle.records.specs.Table.{table_of, with_groups, plain_table_at, group_table_at, table_at, read_table, write_table};

use ranges::range::{check_table, in_range, table_size};
use records::little::{num_at, put_16};
use records::refusal::{Refusal, refuse};
use records::table::Table;
use std::array;

// The table of sixteen numbers: one group, each long number equal to its short one.
pub fn table_of(n: [u16; 16]) -> Table
    ensures { result ≡ table_of n }
{
    Table {
        edition: n[0],
        banks: n[1],
        b: n[2],
        ccd: n[3],
        rcd: n[4],
        rp: n[5],
        ras: n[6],
        rc: n[7],
        rrd: n[8],
        faw: n[9],
        rl: n[10],
        wl: n[11],
        rtp: n[12],
        wr: n[13],
        wtr: n[14],
        rfc: n[15],
        groups: 1,
        ccdl: n[3],
        rrdl: n[8],
        wtrl: n[14],
    }
}

// A table with its group count and its long numbers.
pub fn with_groups(t: Table, groups: u16, ccdl: u16, rrdl: u16, wtrl: u16) -> Table
    ensures { result ≡ with_groups t groups ccdl rrdl wtrl }
{
    Table {
        groups,
        ccdl,
        rrdl,
        wtrl,
        ..t
    }
}

// The table of 32 bytes.
pub fn plain_table_at(s: &[u8]) -> Table
    requires { 32 ≤ length s.now }
    ensures { result ≡ plain_table_at s.now }
{
    table_of(array::from_fn(|i| num_at(s, 2 * i)))
}

// The table of 40 bytes.
pub fn group_table_at(s: &[u8]) -> Table
    requires { 40 ≤ length s.now }
    ensures { result ≡ group_table_at s.now }
{
    with_groups(
        plain_table_at(s),
        num_at(s, 32),
        num_at(s, 34),
        num_at(s, 36),
        num_at(s, 38),
    )
}

// The table of 32 bytes, or of 40 where there are so many.
pub fn table_at(s: &[u8]) -> Table
    requires { 32 ≤ length s.now }
    ensures { result ≡ table_at s.now }
{
    if s.len() == 40 {
        group_table_at(s)
    } else {
        plain_table_at(s)
    }
}

#[tactic(auto, unfolding(records::specs::Table::read_table))]
pub fn read_table(s: &[u8]) -> Result<Table, Refusal>
    ensures { result ≡ read_table s.now }
{
    if !table_size(s.len()) {
        return Err(refuse(1, 0, 0));
    }
    let t = table_at(s);
    if !in_range(t) {
        return Err(refuse(2, 0, 0));
    }
    Ok(t)
}

// Writes numbers from the buffer's start.
#[tactic(auto, using(records::proofs::Bytes::number_more))]
pub fn put_numbers(n: &[u16], s: &mut [u8])
    requires { 2 * length n.now ≤ length s.old }
    ensures { s.new ≡ over (bytes16 n.now) s.old }
{
    for (i, &x) in n.iter().enumerate() {
        put_16(s, 2 * i, x);
    }
}

#[tactic(auto, unfolding(records::specs::Table::write_table))]
pub fn write_table(n: [u16; 16], s: &mut [u8]) -> Result<u16, Refusal>
    ensures { Leaves (write_table n s.old) result s.new }
{
    let t = table_of(n);
    check_table(s.len() == 32, t)?;
    put_numbers(&n, s);
    Ok(t.edition)
}
