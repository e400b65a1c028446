// The search: each cycle in turn, with fewer cycles left at each deeper call.
ghost use Rattle.std.specs.Prelude.{◌≡◌, true, false, ◌&&◌, suc, ◌-◌, ◌*◌, ◌≤◌, ◌<◌};
ghost use Rattle.rules.specs.Square.{square};
ghost use Rattle.rules.specs.State.{Held};
ghost use Rattle.shortest.specs.Search.{Shaped, Searched};

use lifts::hope::hope;
use records::command::Command;
use records::table::Table;
use shortest::place::{class_of, count, kind_at, put};
use shortest::write::judge_records;

pub fn is_choice(low: bool, few: bool, same: bool) -> bool
    ensures { result ≡ (low && (few && same)) }
{
    low && few && same
}

// The first k of n records are placed, and `left` cycles of the pattern are left. At the first of them each choice is tried, ACTs first and
// banks ascending; where none leads to a pattern the cycle stays empty. What is found is the records.
pub fn search(
    t: Table,
    near: [[u32; 2]; 2],
    away: [[u32; 2]; 2],
    write: bool,
    bi: u8,
    bc: u8,
    length: u32,
    n: usize,
    left: u32,
    k: usize,
    items: [Command; 6],
) -> Option<[Command; 6]>
    requires { Held t × (near ≡ square t true) × (away ≡ square t false) × (bi ≤ t.banks) × (0 < length) × (length ≤ 128) × (n ≡ bi * suc bc) × (n ≤ 6) × (bi ≤ 3)
        × (left ≤ length) × (0 < k) × (k ≤ n) × Shaped write bi bc length k items }
    ensures { Searched t write bi bc length k items (length - left) result }
{
    if k == n {
        let legal = judge_records(t, length, n, items);
        return if legal { Some(items) } else { None };
    }
    if left == 0 {
        return None;
    }
    let c = length - left;
    let fewer = left - 1;
    for m in 0..9 {
        let class = m / 3;
        let b = m % 3;
        let step = count(items, k, b);
        let kind = kind_at(write, bc, step);
        let same = class_of(kind) == class;
        if !is_choice(b < bi, step <= bc, same) {
            continue;
        }
        let placed = put(items, k, c, kind, b);
        let next = k + 1;
        let some = hope(t, near, away, write, bi, bc, length, n, next, next, placed);
        if !some {
            continue;
        }
        if let Some(found) = search(t, near, away, write, bi, bc, length, n, fewer, next, placed) {
            return Some(found);
        }
    }
    search(t, near, away, write, bi, bc, length, n, fewer, k, items)
}
