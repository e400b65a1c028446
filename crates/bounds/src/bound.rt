// "The bound for (BI, BC), n = BI × BC." "In the bound CCD, RRD and WTR are the long ones" (document 02, request 7). Nothing here reaches 2 to the 32,
// whatever the table's numbers are.
ghost use Rattle.std.specs.Prelude.{◌≡◌, ◌+◌, ◌-◌, ◌*◌, ◌≤◌};
ghost use Rattle.rules.specs.Bound.{bound_s, bound_d, bound_x, bound};

use distances::square::{rd_to_wr, sum_2, sum_4, wr_to_rd};
use records::table::Table;

pub fn less_wide(a: u16, b: u16) -> u32
    ensures { result ≡ a - b }
{
    u32::from(a.saturating_sub(b))
}

// "S is the greatest of 1, RAS − RCD + RP, RC − RCD, RTP + RP, WL + B + WR + RP, RRD − RCD, FAW − RCD."
#[tactic(auto, unfolding(rules::specs::Bound::bound_s))]
pub fn bound_s(t: Table) -> u32
    ensures { result ≡ bound_s t }
{
    let ras = less_wide(t.ras, t.rcd) + u32::from(t.rp);
    let rc = less_wide(t.rc, t.rcd);
    let rtp = sum_2(t.rtp, t.rp);
    let wr = sum_4(t.wl, t.b, t.wr, t.rp);
    let rrd = less_wide(t.rrdl, t.rcd);
    let faw = less_wide(t.faw, t.rcd);
    ras.max(rc).max(rtp).max(wr).max(rrd).max(faw).max(1)
}

// "D is the greater of RRD and FAW / 4 rounded up."
#[tactic(auto, unfolding(rules::specs::Bound::bound_d))]
pub fn bound_d(t: Table) -> u32
    ensures { result ≡ bound_d t }
{
    u32::from(t.rrdl).max(u32::from(t.faw).div_ceil(4))
}

// "X is the greatest of the three data distances."
#[tactic(auto, unfolding(rules::specs::Bound::bound_x))]
pub fn bound_x(t: Table) -> u32
    ensures { result ≡ bound_x t }
{
    u32::from(t.ccdl)
        .max(rd_to_wr(t, true))
        .max(wr_to_rd(t, true))
}

// A count less one, times a distance.
pub fn spaced(count: u32, distance: u32) -> u32
    requires { (count ≤ 65025) × (distance ≤ 65536) }
    ensures { (result ≡ (count - 1) * distance) × (result ≤ 65024 * distance) × (result ≤ count * 65536) }
{
    count.saturating_sub(1) * distance
}

// "The bound is the greater of X + (n − 1) × CCD and S + RCD + the greater of (n − 1) × CCD and (BI − 1) × (D + 1) + (BC − 1) × CCD"
#[tactic(auto, unfolding(rules::specs::Bound::bound))]
pub fn bound_of(t: Table, bi: u8, bc: u8) -> u32
    ensures { result ≡ bound t bi bc }
{
    let (bi, bc) = (u32::from(bi), u32::from(bc));
    let ccd = u32::from(t.ccdl);
    let bursts = spaced(bi * bc, ccd);
    let acts = spaced(bi, bound_d(t) + 1);
    let last = spaced(bc, ccd);
    let served = bound_s(t) + u32::from(t.rcd) + bursts.max(acts + last);
    served.max(bound_x(t) + bursts)
}
