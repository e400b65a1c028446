// Number 11, and how many commands a capture holds.
ghost use Rattle.std.specs.Prelude.{◌≡◌, ◌&&◌, ◌||◌, ◌+◌, ◌<◌, eqb, ltb};
ghost use Rattle.records.specs.Tests.{pick};
ghost use Rattle.stamps.specs.Capture.{too_late};
ghost use Rattle.capture.specs.Answer.{Scans};

use stamps::one_record::{cycle_after, is_tick, record_at};

// The lowest record that number 11 names, or how many records there are; and the commands before it.
#[derive(Clone, Copy)]
pub struct Scanned {
    pub place: usize,
    pub count: usize,
}

// Number 11 of record i: a stamp equal to the one before it, or a true cycle above 4,294,967,295.
pub fn is_bad(i: usize, before: u16, stamp: u16, cycle: u64) -> bool
    ensures { result ≡ ((ltb 0 i && eqb stamp before) || too_late cycle) }
{
    (0 < i && stamp == before) || 4294967295 < cycle
}

// One more, but for a tick.
pub fn counted(tick: bool, count: usize) -> usize
    requires { count < 18446744073709551615 }
    ensures { result ≡ pick tick count (count + 1) }
{
    if tick { count } else { count + 1 }
}

// Before the first record stamp and cycle are 0, so that its own stamp is its true cycle.
pub fn scan(s: &[u8]) -> Scanned
    ensures { Scans s.now result }
{
    let n = s.len() / 4;
    let mut stamp: u16 = 0;
    let mut cycle: u64 = 0;
    let mut count: usize = 0;
    for i in 0..n {
        let x = record_at(s, i * 4);
        let c = cycle_after(stamp, cycle, x.stamp);
        if is_bad(i, stamp, x.stamp, c) {
            return Scanned { place: i, count };
        }
        stamp = x.stamp;
        cycle = c;
        count = counted(is_tick(x.kind, x.bank), count);
    }
    Scanned { place: n, count }
}
