// The least length, and the pattern of that length that comes first.
ghost use Rattle.std.specs.Prelude.{suc, ◌*◌, ◌≤◌, ◌<◌};
ghost use Rattle.rules.specs.State.{Held};
ghost use Rattle.shortest.specs.Search.{FoundLeast};

use crate::search::search;
use distances::square::distances;
use lifts::hope::hope;
use records::command::{Command, Kind};
use records::table::Table;
use shortest::place::records_of;

// Each length in turn, from 1 to the greatest: the least length and its pattern, if there is one.
pub fn least(t: Table, write: bool, bi: u8, bc: u8, most: u32) -> Option<(u32, [Command; 6])>
    requires { Held t × (0 < bi) × (0 < bc) × (bi * suc bc ≤ 6) × (bi ≤ t.banks) × (most ≤ 128) }
    ensures { FoundLeast t write bi bc most result }
{
    let near = distances(t, true);
    let away = distances(t, false);
    let n = records_of(bi, bc);
    let nil = Command {
        cycle: 0,
        kind: Kind::Act,
        bank: 0,
        number: 0,
    };
    let items = [nil; 6];
    for length in 1..=most {
        let some = hope(t, near, away, write, bi, bc, length, n, 1, 1, items);
        if !some {
            continue;
        }
        if let Some(found) = search(
            t,
            near,
            away,
            write,
            bi,
            bc,
            length,
            n,
            length - 1,
            1,
            items,
        ) {
            return Some((length, found));
        }
    }
    None
}
