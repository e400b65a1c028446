// The rules that go over the table's groups, or over its banks.
ghost use Rattle.std.specs.Prelude.{◌≡◌, ◌≤◌};
ghost use Rattle.records.specs.Tests.{pick};
ghost use Rattle.timing.specs.Kept.{stamp_of, told_bank, told};
ghost use Rattle.earliest.specs.Earliest.{limit, rests_from};
ghost use Rattle.soonest.specs.Earlier.{latest_of, six_from, nine_from, ready_from, opens_from};

use crate::free::{LIMIT, act_head_from, data_head_from, far_from, rest_from, since_of};
use heads::head::Head;
use records::table::Table;
use timing::kept::{Kept, KeptBank, KeptGroup};

// The latest ACT, RD and WR of the first n groups.
pub fn latest_of(n: usize, groups: [KeptGroup; 8]) -> KeptGroup
    requires { n ≤ 8 }
    ensures { result ≡ latest_of n groups }
{
    let mut act = 0;
    let mut rd = 0;
    let mut wr = 0;
    for g in 0..n {
        let k = groups[g];
        act = k.act.max(act);
        rd = k.rd.max(rd);
        wr = k.wr.max(wr);
    }
    KeptGroup { act, rd, wr }
}

// Rule 6, for an ACT to a bank of a group whose latest ACT is `own`; `latest` is that of all groups. A table of one group asks for that alone.
pub fn six_from(t: Table, own: u64, latest: u64) -> u64
    ensures { result ≡ six_from t own latest }
{
    if t.groups == 1 {
        since_of(latest, t.rrdl as u32)
    } else {
        since_of(own, t.rrdl as u32).max(since_of(latest, t.rrd as u32))
    }
}

// Rule 9, for a data command, a write or not, to a bank of a group whose latest RD and WR are `rd` and `wr`.
pub fn nine_from(
    groups: u16,
    near: [[u32; 2]; 2],
    away: [[u32; 2]; 2],
    rd: u64,
    wr: u64,
    latest: KeptGroup,
    write: bool,
) -> u64
    ensures { result ≡ nine_from groups near away rd wr latest write }
{
    if groups == 1 {
        far_from(near, latest.rd, latest.wr, write)
    } else {
        let own = far_from(near, rd, wr, write);
        own.max(far_from(away, latest.rd, latest.wr, write))
    }
}

// Rule 11, asked of a REF alone.
pub fn rests_from(t: Table, s: Kept) -> u64
    requires { t.banks ≤ 16 }
    ensures { result ≡ rests_from t (told s) }
{
    let mut from = 0;
    for b in 0..t.banks as usize {
        from = rest_from(t, s.banks[b]).max(from);
    }
    from
}

// The data queue's head by all but rule 9, where that is not known from before.
pub fn ready_from(known: bool, before: u64, t: Table, h: Head, k: KeptBank, acts: u32) -> u64
    ensures { result ≡ pick known before (ready_from t h (told_bank k) acts) }
{
    if known {
        before
    } else {
        data_head_from(t, h, k, acts)
    }
}

// The ACT queue's head, an ACT, where that is not known from before. A REF is asked for by itself.
pub fn opens_from(
    refreshes: bool,
    known: bool,
    before: u64,
    t: Table,
    h: Head,
    k: KeptBank,
    own: u64,
    latest: u64,
    a4: u64,
    refresh: u64,
) -> u64
    ensures { result ≡ pick refreshes limit (pick known before (opens_from t h (told_bank k) (six_from t own latest) (stamp_of a4) (stamp_of refresh))) }
{
    if refreshes {
        LIMIT
    } else if known {
        before
    } else {
        let six = six_from(t, own, latest);
        act_head_from(t, h, k, six, a4, refresh)
    }
}
