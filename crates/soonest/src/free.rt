// The cycle from which on a head is free, while nothing goes. As the tests of `timing`, these take a bank and the numbers that the rules read, never the
// whole state.
ghost use Rattle.std.specs.Prelude.{◌≡◌, ◌+◌, min, max};
ghost use Rattle.records.specs.Tests.{pick};
ghost use Rattle.timing.specs.Kept.{stamp_of, told_bank};
ghost use Rattle.earliest.specs.Earliest.{limit, since, gate, charged_from, far_from, rest_from, act_from};
ghost use Rattle.earliest.specs.Jump.{left_of};
ghost use Rattle.soonest.specs.Earlier.{ready_from, opens_from};

use distances::square::{cell_of, side_of, sum_2, sum_4};
use heads::head::Head;
use records::table::Table;
use timing::kept::{KeptBank, kept_open};

// Every run ends at this cycle.
pub const LIMIT: u64 = 100000000;

// The first cycle that is d past a stamp. Nothing wraps, whatever the stamp.
pub fn since_of(s: u64, d: u32) -> u64
    ensures { result ≡ since (stamp_of s) d }
{
    if s == 0 {
        0
    } else {
        LIMIT.min(s - 1) + d as u64
    }
}

// What no idle cycle changes.
pub fn gate_of(b: bool) -> u64
    ensures { result ≡ gate b }
{
    if b { 0 } else { LIMIT }
}

// Rule 4.
pub fn charged_from(t: Table, k: KeptBank) -> u64
    ensures { result ≡ charged_from t (told_bank k) }
{
    let from_act = since_of(k.act, sum_2(t.ras, t.rp));
    let from_rd = since_of(k.rd, sum_2(t.rtp, t.rp));
    let from_wr = since_of(k.wr, sum_4(t.wl, t.b, t.wr, t.rp));
    from_act.max(from_rd.max(from_wr))
}

// Rule 11, of one bank.
pub fn rest_from(t: Table, k: KeptBank) -> u64
    ensures { result ≡ rest_from t (told_bank k) }
{
    gate_of(!kept_open(k)).max(charged_from(t, k))
}

// Rule 9 by the latest RD and WR of one group.
pub fn far_from(q: [[u32; 2]; 2], rd: u64, wr: u64, write: bool) -> u64
    ensures { result ≡ far_from q (stamp_of rd) (stamp_of wr) write }
{
    let w = side_of(write);
    let from_rd = since_of(rd, cell_of(q, 0, w));
    let from_wr = since_of(wr, cell_of(q, 1, w));
    from_rd.max(from_wr)
}

// Rules 3 to 12 for an ACT to bank k; from `six` on rule 6 is kept, a4 is the fourth ACT before it, `refresh` the last REF.
pub fn act_from(t: Table, k: KeptBank, six: u64, a4: u64, refresh: u64) -> u64
    ensures { result ≡ act_from t (told_bank k) six (since (stamp_of a4) t.faw) (since (stamp_of refresh) t.rfc) }
{
    let closed = gate_of(!kept_open(k));
    let four = charged_from(t, k);
    let five = since_of(k.act, t.rc as u32);
    let seven = since_of(a4, t.faw as u32);
    let twelve = since_of(refresh, t.rfc as u32);
    closed.max(four.max(five.max(six.max(seven.max(twelve)))))
}

// The head of a queue, if one stands there: it is seen from its arrival on, and free from `free` on.
pub fn head_from(there: bool, arrival: u32, free: u64) -> u64
    ensures { result ≡ pick there (max arrival free) limit }
{
    if there {
        (arrival as u64).max(free)
    } else {
        LIMIT
    }
}

// The ACT queue's head, an ACT to bank k.
pub fn act_head_from(t: Table, h: Head, k: KeptBank, six: u64, a4: u64, refresh: u64) -> u64
    ensures { result ≡ opens_from t h (told_bank k) six (stamp_of a4) (stamp_of refresh) }
{
    head_from(h.there, h.arrival, act_from(t, k, six, a4, refresh))
}

// The ACT queue's head, a REF; from `eleven` on rule 11 is kept.
pub fn ref_head_from(t: Table, h: Head, eleven: u64, refresh: u64) -> u64
    ensures { result ≡ pick h.there (max h.arrival (max eleven (since (stamp_of refresh) t.rfc))) limit }
{
    let twelve = since_of(refresh, t.rfc as u32);
    head_from(h.there, h.arrival, eleven.max(twelve))
}

// The data queue's head, to bank k, by all but rule 9, when `acts` commands have left the ACT queue.
pub fn data_head_from(t: Table, h: Head, k: KeptBank, acts: u32) -> u64
    ensures { result ≡ ready_from t h (told_bank k) acts }
{
    let had = gate_of(h.act < acts);
    let opened = gate_of(kept_open(k));
    let eight = since_of(k.act, t.rcd as u32);
    head_from(h.there, h.arrival, had.max(opened.max(eight)))
}

// Where a run that has `left` cycles to go ends, if nothing goes before.
pub fn end_of(cycle: u64, served: bool, left: u32) -> u64
    ensures { result ≡ max cycle (min limit (cycle + left_of served left)) }
{
    if served || LIMIT <= cycle {
        cycle
    } else {
        LIMIT.min(cycle + left as u64)
    }
}
