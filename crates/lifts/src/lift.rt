// Lower bounds of a pattern's cycles, for one order of its commands.
ghost use Rattle.std.specs.Prelude.{◌≡◌, true, false, map, ◌+◌, ◌≤◌, ◌<◌};
ghost use Rattle.rules.specs.Kinds.{is_ref, is_known};
ghost use Rattle.rules.specs.Square.{square};
ghost use Rattle.rules.specs.State.{Held};
ghost use Rattle.rules.specs.History.{is_fine};
ghost use Rattle.timing.specs.Kept.{stamp_of, told_bank, told_group};
ghost use Rattle.shortest.specs.Search.{Placeable};
ghost use Rattle.shortest.specs.Lifting.{found_at, Scanned, Limit, next_place, next_shift, LostFor};

use broken::among::found_among;
use distances::kinds::{is_act, is_closing, is_wr};
use grouped::groups::{group_moved, group_of, group_opened};
use records::command::{Command, Kind};
use records::table::Table;
use rules::verdict::Rule;
use timing::kept::{KeptBank, KeptGroup, kept_after, kept_fresh};

pub fn is_fine(f: Option<Rule>) -> bool
    ensures { result ≡ is_fine f }
{
    matches!(f, None)
}

// The first cycle from `from` on at which a record breaks no rule, or one above lim. The state is told by its parts, as the rules read them.
pub fn scan(
    t: Table,
    near: [[u32; 2]; 2],
    away: [[u32; 2]; 2],
    cycle: u64,
    k: KeptBank,
    groups: [KeptGroup; 8],
    own: usize,
    a4: u64,
    refresh: u64,
    kind: Kind,
    from: u64,
    lim: u64,
) -> u64
    requires { (t.groups ≤ 8) × (near ≡ square t true) × (away ≡ square t false) × (is_known kind ≡ true) × (is_ref kind ≡ false) × (lim < 4611686018427387904) }
    ensures { Scanned (found_at t cycle (told_bank k) (map told_group groups) own (stamp_of a4) (stamp_of refresh) kind) from lim result }
{
    for c in from..=lim {
        let f = found_among(t, near, away, cycle, k, groups, own, a4, refresh, kind, c);
        if is_fine(f) {
            return c;
        }
    }
    from.max(lim + 1)
}

// A record's bound, in a copy that is `off` cycles later.
pub fn bound_of(cycle: u32, off: u64) -> u64
    requires { off ≤ 4000000000 }
    ensures { (result ≡ cycle + off) × (result ≤ 4294967295 + off) }
{
    u64::from(cycle) + off
}

// Up to where a record with this bound may go in a copy that is `off` cycles later: a placed one not at all, the others to the last cycle of the copy.
pub fn limit_of(placed: bool, bound: u64, length: u32, off: u64) -> u64
    requires { (0 < length) × (off ≤ 4000000000) × (bound ≤ 4294967295 + off) }
    ensures { Limit placed bound length off result × (result ≤ 4294967295 + off) }
{
    if placed {
        bound
    } else {
        u64::from(length) - 1 + off
    }
}

// The place after i, the first after the last; and how many cycles later its copy is.
pub fn next_place(n: usize, i: usize) -> usize
    requires { i < n }
    ensures { result ≡ next_place n i }
{
    let next = i + 1;
    if next == n { 0 } else { next }
}

pub fn next_shift(n: usize, i: usize, length: u32, off: u64) -> u64
    requires { (i < n) × (off ≤ 4000000000) }
    ensures { result ≡ next_shift n i length off }
{
    if i + 1 == n {
        off + u64::from(length)
    } else {
        off
    }
}

// How many records in a row were set out at their bounds.
pub fn quiet_after(raised: bool, quiet: u32) -> u32
    requires { quiet < 30 }
    ensures { result ≤ 30 }
{
    if raised { 0 } else { quiet + 1 }
}

// Sets out copy after copy, each record at the first cycle from its bound on that breaks no rule, and lifts the bound to there. Where a record
// would pass its limit there is no hope; the first k records are placed. There may be hope once 30 records in a row, five copies or more, stand
// at their bounds. (What lifts a bound lifts it by one at least, and none is above 127: 24,000 records are enough.)
pub fn lift(
    t: Table,
    near: [[u32; 2]; 2],
    away: [[u32; 2]; 2],
    length: u32,
    k: usize,
    n: usize,
    items: [Command; 6],
) -> bool
    requires { Held t × (near ≡ square t true) × (away ≡ square t false) × (0 < length) × (length ≤ 128) × (0 < n) × (n ≤ 6) × Placeable t n items }
    ensures { result ≡ false → LostFor t length k n items }
{
    let mut x = items;
    let mut s = kept_fresh(t.edition);
    let mut off: u64 = 0;
    let mut quiet: u32 = 0;
    let mut i: usize = 0;
    for turn in 0..24000u32 {
        let r = x[i];
        let kind = r.kind;
        let b = r.bank;
        let at = b as usize;
        let g = group_of(b, t.groups);
        let bank = s.banks[at];
        let own = s.groups[g];
        let bound = bound_of(r.cycle, off);
        let lim = limit_of(i < k, bound, length, off);
        let c = scan(
            t,
            near,
            away,
            s.cycle,
            bank,
            s.groups,
            g,
            s.a4,
            s.refresh,
            kind,
            bound.max(s.cycle),
            lim,
        );
        if lim < c {
            return false;
        }
        quiet = quiet_after(bound < c, quiet);
        if quiet == 30 {
            return true;
        }
        x[i] = Command {
            cycle: (c - off) as u32,
            ..r
        };
        off = next_shift(n, i, length, off);
        i = next_place(n, i);
        let later = c + 1;
        s.cycle = later;
        if is_act(kind) {
            s.groups[g] = group_opened(own, later);
            s.acts += 1;
            s.banks[at] = KeptBank {
                opened: 1,
                act: later,
                rd: 0,
                wr: 0,
            };
            s.a4 = s.a3;
            s.a3 = s.a2;
            s.a2 = s.a1;
            s.a1 = later;
            continue;
        }
        let write = is_wr(kind);
        s.groups[g] = group_moved(own, write, later);
        s.datas += 1;
        s.banks[at] = kept_after(bank, write, is_closing(kind), later);
    }
    true
}
