// What judging a capture answers, and what it refuses before.
ghost use Rattle.std.specs.Prelude.{◌≡◌};
ghost use Rattle.capture.specs.Answer.{not_a_capture, checked_capture};

use crate::scan::scan;
use records::refusal::{Refusal, refuse};
use rules::verdict::Verdict;

// "bytes not a multiple of 4, or over 69,632 records"
pub fn not_a_capture(size: usize) -> bool
    ensures { result ≡ not_a_capture size }
{
    size % 4 != 0 || 69632 < size / 4
}

// Numbers 7, 11 and 5, in this order; else the commands that are due. Number 11 names its record, the others none.
pub fn check_capture(s: &[u8], room: usize, edition: u16) -> Result<usize, Refusal>
    ensures { result ≡ checked_capture s.now room edition }
{
    if not_a_capture(s.len()) {
        return Err(refuse(7, 0, edition));
    }
    let found = scan(s);
    let tight = room < 8 * found.count;
    let late = found.place < s.len() / 4;
    if late {
        return Err(refuse(11, found.place as u32, edition));
    }
    if tight {
        return Err(refuse(5, 0, edition));
    }
    Ok(found.count)
}
