// Which tables number 1 and number 2 refuse.
ghost use Rattle.std.specs.Prelude.{◌≡◌};
ghost use Rattle.std.specs.List.{list_all};
ghost use Rattle.records.specs.Tests.{every, within};
ghost use Rattle.records.specs.Told.{checked};
ghost use Rattle.records.specs.Table.{timings, groups_in_range, in_range, table_size, table_refusal_by};

use records::refusal::{Refusal, refuse};
use records::table::Table;
use records::tests::is_within;

// "the group count (1 to 8, at most banks)", the long numbers at most 1,023 and no less than the short ones.
pub fn groups_in_range(t: Table) -> bool
    ensures { result ≡ groups_in_range t }
{
    is_within(1, 8, t.groups)
        && t.groups <= t.banks
        && is_within(t.ccd, 1023, t.ccdl)
        && is_within(t.rrd, 1023, t.rrdl)
        && is_within(t.wtr, 1023, t.wtrl)
}

// Each number is lo to hi.
pub fn are_within(lo: u16, hi: u16, xs: &[u16]) -> bool
    ensures { result ≡ list_all (within lo hi) xs.now }
{
    xs.iter().all(|&x| is_within(lo, hi, x))
}

// The timing numbers are 1 to 1,023.
pub fn timings_in_range(t: Table) -> bool
    ensures { result ≡ every (within 1 1023) (timings t) }
{
    let timings = [
        t.b, t.ccd, t.rcd, t.rp, t.ras, t.rc, t.rrd, t.faw, t.rl, t.wl, t.rtp, t.wr, t.wtr,
    ];
    are_within(1, 1023, &timings)
}

// "Edition is 1 to 65,535, banks 1 to 16", the timing numbers 1 to 1,023, RFC "0 to 1,023"; "CCD is at least 2 and at least B."
pub fn in_range(t: Table) -> bool
    ensures { result ≡ in_range t }
{
    is_within(1, 65535, t.edition)
        && is_within(1, 16, t.banks)
        && 2 <= t.ccd
        && t.b <= t.ccd
        && t.rfc <= 1023
        && groups_in_range(t)
        && timings_in_range(t)
}

// "Number 1 now refuses any size but 32 and 40".
pub fn table_size(size: usize) -> bool
    ensures { result ≡ table_size size }
{
    size == 32 || size == 40
}

// Numbers 1 and 2 of a table whose size is right or not.
pub fn check_table(right: bool, t: Table) -> Result<(), Refusal>
    ensures { result ≡ checked (table_refusal_by right t) 0 0 }
{
    if !right {
        return Err(refuse(1, 0, 0));
    }
    if !in_range(t) {
        return Err(refuse(2, 0, 0));
    }
    Ok(())
}
