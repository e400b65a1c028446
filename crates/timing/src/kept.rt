// The running state in plain numbers, for a loop that keeps it in a local and changes it in place: numbers and elements are stored to, and the
// tests are handed numbers and one bank. What it tells is `told`, of which a loop's invariant speaks.
ghost use Rattle.std.specs.Prelude.{◌≡◌, ◌+◌, ◌≤◌, ◌<◌};
ghost use Rattle.std.specs.List.{list_all};
ghost use Rattle.records.specs.Tests.{pick, all_of};
ghost use Rattle.rules.specs.State.{past, is_open, charged, at_rest, rule11, far_by, act_tests_of, data_tests_of};
ghost use Rattle.timing.specs.Kept.{stamp_of, told_bank, told, kept_fresh, kept_after};

use distances::square::{cell_of, side_of, sum_2, sum_4};
use records::table::Table;

// A bank. A stamp is 0 for "never", and else the cycle after it.
#[derive(Clone, Copy)]
pub struct KeptBank {
    pub opened: u32,
    pub act: u64,
    pub rd: u64,
    pub wr: u64,
}

// A group: its latest ACT, RD and WR.
#[derive(Clone, Copy)]
pub struct KeptGroup {
    pub act: u64,
    pub rd: u64,
    pub wr: u64,
}

#[derive(Clone, Copy)]
pub struct Kept {
    pub edition: u32,
    pub cycle: u64,
    pub acts: u32,
    pub datas: u32,
    pub banks: [KeptBank; 16],
    pub a1: u64,
    pub a2: u64,
    pub a3: u64,
    pub a4: u64,
    pub groups: [KeptGroup; 8],
    pub refresh: u64,
    pub lent: u32,
}

pub fn kept_fresh(edition: u16) -> Kept
    ensures { result ≡ kept_fresh edition }
{
    let shut = KeptBank {
        opened: 0,
        act: 0,
        rd: 0,
        wr: 0,
    };
    let quiet = KeptGroup {
        act: 0,
        rd: 0,
        wr: 0,
    };
    Kept {
        edition: u32::from(edition),
        cycle: 0,
        acts: 0,
        datas: 0,
        banks: [shut; 16],
        a1: 0,
        a2: 0,
        a3: 0,
        a4: 0,
        groups: [quiet; 8],
        refresh: 0,
        lent: 0,
    }
}

// Cycle t is at least d after the stamp. Nothing wraps, whatever the stamp.
pub fn since(s: u64, d: u32, t: u64) -> bool
    ensures { result ≡ past (stamp_of s) d t }
{
    s == 0 || (s - 1 <= t && u64::from(d) <= t - (s - 1))
}

// The tests are functions and no methods: some read a bank, others two stamps of a group, and methods would read no plainer.
pub fn kept_open(k: KeptBank) -> bool
    ensures { result ≡ is_open (told_bank k) }
{
    k.opened != 0
}

// Rule 4. The tests below stop at the first that fails, the likeliest first.
pub fn kept_charged(t: Table, k: KeptBank, c: u64) -> bool
    ensures { result ≡ charged t (told_bank k) c }
{
    since(k.wr, sum_4(t.wl, t.b, t.wr, t.rp), c)
        && since(k.rd, sum_2(t.rtp, t.rp), c)
        && since(k.act, sum_2(t.ras, t.rp), c)
}

// A bank that lets a REF go at cycle c: it is closed and charged.
pub fn kept_at_rest(t: Table, k: KeptBank, c: u64) -> bool
    ensures { result ≡ at_rest t (told_bank k) c }
{
    !kept_open(k) && kept_charged(t, k, c)
}

// Each of these banks lets a REF go at cycle c.
pub fn all_at_rest(t: Table, banks: &[KeptBank], c: u64) -> bool
    ensures { result ≡ list_all (λ k. at_rest t (told_bank k) c) banks.now }
{
    banks.iter().all(|&k| kept_at_rest(t, k, c))
}

// Rule 11: every bank of the table lets a REF go at cycle c. It goes over the banks, so it is asked of a REF alone.
pub fn kept_rests(t: Table, s: Kept, c: u64) -> bool
    requires { t.banks ≤ 16 }
    ensures { result ≡ rule11 t (told s) c }
{
    all_at_rest(t, &s.banks[..usize::from(t.banks)], c)
}

// Rule 9 by the latest RD and WR of one group.
pub fn kept_far(q: [[u32; 2]; 2], rd: u64, wr: u64, write: bool, c: u64) -> bool
    ensures { result ≡ far_by q (stamp_of rd) (stamp_of wr) write c }
{
    let w = side_of(write);
    since(rd, cell_of(q, 0, w), c) && since(wr, cell_of(q, 1, w), c)
}

// An ACT to bank k at cycle c breaks none of rules 3 to 12, where rule 6 is asked of its own group alone: `act` is that group's latest ACT, a4
// the fourth ACT before it, `refresh` the last REF. The other groups are asked after it (`groups`).
pub fn kept_act_free(t: Table, k: KeptBank, act: u64, a4: u64, refresh: u64, c: u64) -> bool
    ensures { result ≡ all_of (act_tests_of t (told_bank k) (past (stamp_of act) t.rrdl c) (past (stamp_of a4) t.faw c) (past (stamp_of refresh) t.rfc c) c) }
{
    !kept_open(k)
        && since(a4, u32::from(t.faw), c)
        && since(act, u32::from(t.rrdl), c)
        && kept_charged(t, k, c)
        && since(k.act, u32::from(t.rc), c)
        && since(refresh, u32::from(t.rfc), c)
}

// A data command to bank k at cycle c, a write or not, breaks none of rules 3 to 9, where rule 9 is asked of one group alone.
pub fn kept_data_free(
    t: Table,
    q: [[u32; 2]; 2],
    k: KeptBank,
    rd: u64,
    wr: u64,
    write: bool,
    c: u64,
) -> bool
    ensures { result ≡ all_of (data_tests_of t (told_bank k) (far_by q (stamp_of rd) (stamp_of wr) write c) c) }
{
    kept_far(q, rd, wr, write, c) && kept_open(k) && since(k.act, u32::from(t.rcd), c)
}

// One of two numbers.
pub fn either_64(first: bool, a: u64, b: u64) -> u64
    ensures { result ≡ pick first a b }
{
    if first { a } else { b }
}

// A bank after a data command, a write or not, with auto precharge or not; `next` is the cycle after it.
pub fn kept_after(k: KeptBank, write: bool, closes: bool, next: u64) -> KeptBank
    ensures { result ≡ kept_after k write closes next }
{
    KeptBank {
        opened: u32::from(!closes),
        rd: if write { k.rd } else { next },
        wr: if write { next } else { k.wr },
        ..k
    }
}
