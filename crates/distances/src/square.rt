// The least distances between data commands.
ghost use Rattle.std.specs.Prelude.{◌≡◌, ◌+◌, ◌<◌};
ghost use Rattle.records.specs.Tests.{pick};
ghost use Rattle.rules.specs.Square.{ccd_of, rrd_of, wtr_of, rd_to_wr, wr_to_rd, square, side, cell};

use records::table::Table;

pub fn sum_2(a: u16, b: u16) -> u32
    ensures { result ≡ a + b }
{
    u32::from(a) + u32::from(b)
}

pub fn sum_3(a: u16, b: u16, c: u16) -> u32
    ensures { result ≡ a + b + c }
{
    u32::from(a) + u32::from(b) + u32::from(c)
}

pub fn sum_4(a: u16, b: u16, c: u16, d: u16) -> u32
    ensures { result ≡ a + b + c + d }
{
    u32::from(a) + u32::from(b) + u32::from(c) + u32::from(d)
}

pub fn long_if(near: bool, long: u16, short: u16) -> u16
    ensures { result ≡ pick near long short }
{
    if near { long } else { short }
}

// CCD, RRD and WTR: the long one for two commands of one group, which are near, the short one otherwise.
pub fn ccd_of(t: Table, near: bool) -> u16
    ensures { result ≡ ccd_of t near }
{
    long_if(near, t.ccdl, t.ccd)
}

pub fn rrd_of(t: Table, near: bool) -> u16
    ensures { result ≡ rrd_of t near }
{
    long_if(near, t.rrdl, t.rrd)
}

pub fn wtr_of(t: Table, near: bool) -> u16
    ensures { result ≡ wtr_of t near }
{
    long_if(near, t.wtrl, t.wtr)
}

// "RD to WR: the greater of CCD and RL + CCD + 2 − WL"
pub fn rd_to_wr(t: Table, near: bool) -> u32
    ensures { result ≡ rd_to_wr t near }
{
    let ccd = ccd_of(t, near);
    u32::from(ccd).max(sum_3(t.rl, ccd, 2).saturating_sub(u32::from(t.wl)))
}

// "WR to RD: the greater of CCD and WL + B + WTR"
pub fn wr_to_rd(t: Table, near: bool) -> u32
    ensures { result ≡ wr_to_rd t near }
{
    u32::from(ccd_of(t, near)).max(sum_3(t.wl, t.b, wtr_of(t, near)))
}

// "The distances are held as a square, one row for each earlier kind." One square within a group, one across.
pub fn distances(t: Table, near: bool) -> [[u32; 2]; 2]
    ensures { result ≡ square t near }
{
    let ccd = u32::from(ccd_of(t, near));
    [[ccd, rd_to_wr(t, near)], [wr_to_rd(t, near), ccd]]
}

// The row or the column of a kind: 1 for a write.
pub fn side_of(write: bool) -> usize
    ensures { result ≡ side write }
{
    usize::from(write)
}

pub fn cell_of(q: [[u32; 2]; 2], earlier: usize, later: usize) -> u32
    requires { (earlier < 2) × (later < 2) }
    ensures { result ≡ cell q earlier later }
{
    q[earlier][later]
}
