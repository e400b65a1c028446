// Whether some order of the commands that are left gives hope.
ghost use Rattle.std.specs.Prelude.{◌≡◌, true, false, suc, ◌*◌, ◌≤◌, ◌<◌};
ghost use Rattle.rules.specs.Square.{square};
ghost use Rattle.rules.specs.State.{Held};
ghost use Rattle.shortest.specs.Search.{Placeable, Hopeless};

use crate::lift::lift;
use records::command::Command;
use records::table::Table;
use shortest::place::{count, kind_at, put};

// The first k records are placed, and those up to m are in this order: without hope, no pattern goes on from them. n is how many it has.
pub fn hope(
    t: Table,
    near: [[u32; 2]; 2],
    away: [[u32; 2]; 2],
    write: bool,
    bi: u8,
    bc: u8,
    length: u32,
    n: usize,
    k: usize,
    m: usize,
    items: [Command; 6],
) -> bool
    requires { Held t × (near ≡ square t true) × (away ≡ square t false) × (bi ≤ t.banks) × (0 < length) × (length ≤ 128) × (n ≡ bi * suc bc) × (0 < n) × (n ≤ 6)
        × (k ≤ m) × (m ≤ n) × Placeable t m items }
    ensures { result ≡ false → Hopeless t write bi bc length k m items }
{
    if m == n {
        return lift(t, near, away, length, k, n, items);
    }
    for b in 0..bi {
        let step = count(items, m, b);
        if bc < step {
            continue;
        }
        let order = put(items, m, 0, kind_at(write, bc, step), b);
        let some = hope(t, near, away, write, bi, bc, length, n, k, m + 1, order);
        if some {
            return true;
        }
    }
    false
}
