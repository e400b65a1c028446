// The table's groups: rules 6 and 9 over each group's latest ACT, RD and WR, and a group after a command. Nothing past the table's groups is read.
ghost use Rattle.std.specs.Prelude.{◌≡◌, true, false, map, ◌%◌, ◌≤◌, ◌<◌};
ghost use Rattle.records.specs.Tests.{pick};
ghost use Rattle.rules.specs.Square.{square};
ghost use Rattle.rules.specs.State.{far_by, acts_far, data_far};
ghost use Rattle.timing.specs.Kept.{stamp_of, told_group, group_opened, group_moved};

use distances::square::rrd_of;
use records::table::Table;
use timing::kept::{KeptGroup, kept_far, since};

// "a bank's group is its number modulo the number of groups". With one group nothing is divided.
pub fn group_of(b: u8, groups: u16) -> usize
    requires { 1 ≤ groups }
    ensures { (result ≡ b % groups) × (result < groups) }
{
    if groups == 1 {
        0
    } else {
        usize::from(u16::from(b) % groups)
    }
}

// Rule 6: an ACT to a bank of the group `own` at cycle c is far enough from each group's latest ACT.
pub fn acts_far(t: Table, groups: [KeptGroup; 8], own: usize, c: u64) -> bool
    requires { t.groups ≤ 8 }
    ensures { result ≡ acts_far t (map told_group groups) own c }
{
    let n = usize::from(t.groups);
    for g in 0..n {
        let apart = u32::from(rrd_of(t, g == own));
        if !since(groups[g].act, apart, c) {
            return false;
        }
    }
    true
}

// Rule 9 by the latest RD and WR of one group, with one square within a group and one across.
pub fn far_from(
    near: [[u32; 2]; 2],
    away: [[u32; 2]; 2],
    same: bool,
    rd: u64,
    wr: u64,
    write: bool,
    c: u64,
) -> bool
    ensures { result ≡ far_by (pick same near away) (stamp_of rd) (stamp_of wr) write c }
{
    if same {
        kept_far(near, rd, wr, write, c)
    } else {
        kept_far(away, rd, wr, write, c)
    }
}

// Rule 9: a data command to a bank of the group `own` at cycle c, a write or not, is far enough from each group's latest RD and WR.
pub fn data_far(
    t: Table,
    near: [[u32; 2]; 2],
    away: [[u32; 2]; 2],
    groups: [KeptGroup; 8],
    own: usize,
    write: bool,
    c: u64,
) -> bool
    requires { (t.groups ≤ 8) × (near ≡ square t true) × (away ≡ square t false) }
    ensures { result ≡ data_far t (map told_group groups) own write c }
{
    for g in 0..usize::from(t.groups) {
        let k = groups[g];
        if !far_from(near, away, g == own, k.rd, k.wr, write, c) {
            return false;
        }
    }
    true
}

// A group after an ACT to one of its banks; `next` is the cycle after it.
pub fn group_opened(k: KeptGroup, next: u64) -> KeptGroup
    ensures { result ≡ group_opened k next }
{
    KeptGroup { act: next, ..k }
}

// And after a data command, a write or not.
pub fn group_moved(k: KeptGroup, write: bool, next: u64) -> KeptGroup
    ensures { result ≡ group_moved k write next }
{
    KeptGroup {
        rd: if write { k.rd } else { next },
        wr: if write { next } else { k.wr },
        ..k
    }
}
