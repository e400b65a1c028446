// The shortest pattern, or its refusal.
ghost use Rattle.rules.specs.State.{Held};
ghost use Rattle.shortest.specs.Answer.{LeavesShortest};

use crate::least::least;
use records::refusal::{Refusal, refuse};
use records::table::Table;
use shortest::answer::check_shortest;
use shortest::place::records_of;
use shortest::write::write_records;

// The table is accepted. Numbers 4 and 5, then the search; number 13 where no pattern is as short. A refusal changes nothing.
pub fn shortest(
    t: Table,
    kind: u8,
    bi: u8,
    bc: u8,
    most: u32,
    out: &mut [u8],
) -> Result<(u16, u32, usize), Refusal>
    requires { Held t }
    ensures { LeavesShortest t kind bi bc most out.old out.new result }
{
    check_shortest(t.banks, kind, bi, bc, most, out.len(), t.edition)?;
    let Some(found) = least(t, kind == 1, bi, bc, most) else {
        return Err(refuse(13, 0, t.edition));
    };
    let (length, items) = found;
    let n = records_of(bi, bc);
    write_records(items, n, out);
    Ok((t.edition, length, n))
}
