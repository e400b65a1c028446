// One pass over the records of a schedule that the judge accepts, and the scan of what it counted.
ghost use Rattle.std.specs.Prelude.{◌≤◌};
ghost use Rattle.records.specs.Command.{commands_in};
ghost use Rattle.rules.specs.Verdict.{Legal};
ghost use Rattle.heads.specs.Queue.{Listed};
ghost use Rattle.copies.specs.Seen.{record_count};
ghost use Rattle.serves.specs.Check.{listed_at, seen, Finds};

use crate::scan::scan;
use faults::turn::{Marks, lower_if, marks_after, number_if, slot_of};
use records::little::num_at;
use records::table::Table;
use transactions::later::later_at;

// The lowest transaction at fault, the list's length where none is; whether a record's number is outside the list.
#[derive(Clone, Copy)]
pub struct Finding {
    pub lowest: u32,
    pub outside: bool,
}

// `acts` has the number that the latest ACT of each bank carries, `last` the place of each transaction's last record, `refs` that of its first REF.
pub fn pass(t: Table, list: &[u8], n: usize, s: &[u8]) -> Finding
    requires { Listed t list.now n × (record_count s.now ≤ 69632) × Legal t (commands_in s.now) }
    ensures { Finds t.banks n (listed_at list.now) (seen s.now (record_count s.now)) result.lowest result.outside }
{
    let banks = t.banks;
    let mut counts = [0u32; 24576];
    let mut acts = [0u16; 16];
    let mut last = [0u32; 256];
    let mut refs = [69632u32; 256];
    let mut marks = Marks {
        top: 0,
        high: 0,
        least: n as u32,
    };
    let mut outside = false;
    for j in 0..s.len() / 8 {
        let place = j as u32;
        let c = s[8 * j + 4];
        let b = s[8 * j + 5];
        let y = num_at(s, 8 * j + 6);
        let at = b as usize;
        let held = acts[at];
        acts[at] = number_if(c == 0, y, held);
        let k = y as usize;
        if n <= k {
            outside = true;
            continue;
        }
        let x = later_at(list, 8 * k);
        marks = marks_after(banks, x.kind, x.start, x.bi, x.bc, c, b, y, held, marks);
        let i = slot_of(k, c, b);
        counts[i] += 1;
        last[k] = place;
        refs[k] = lower_if(c == 5, place, refs[k]);
    }
    let lowest = scan(banks, list, marks.least, &counts, &last, &refs);
    Finding { lowest, outside }
}
