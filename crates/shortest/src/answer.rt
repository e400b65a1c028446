// What the search for the shortest pattern answers, and what it refuses before it searches.
ghost use Rattle.std.specs.Prelude.{◌≡◌, ◌*◌, ◌≤◌, leb, ltb};
ghost use Rattle.records.specs.Told.{checked};
ghost use Rattle.records.specs.Tests.{within};
ghost use Rattle.shortest.specs.Answer.{is_asked, shortest_refusal};

use crate::place::records_of;
use records::refusal::{Refusal, refuse};

// "a greatest length of 1 to 128"
pub fn is_length(most: u32) -> bool
    ensures { result ≡ within 1 128 most }
{
    1 <= most && most <= 128
}

pub fn is_low(bi: u8, banks: u16) -> bool
    ensures { result ≡ leb bi banks }
{
    u16::from(bi) <= banks
}

// A type, BI, BC and a greatest length that may be asked for.
pub fn is_asked(banks: u16, kind: u8, bi: u8, bc: u8, most: u32) -> bool
    ensures { result ≡ is_asked banks kind bi bc most }
{
    let few = records_of(bi, bc) <= 6;
    kind <= 1 && 1 <= bi && 1 <= bc && few && is_length(most) && is_low(bi, banks)
}

// 8 bytes to a record are more than the room.
pub fn is_short(room: usize, records: usize) -> bool
    requires { records ≤ 65280 }
    ensures { result ≡ ltb room (8 * records) }
{
    room < 8 * records
}

// Numbers 4 and 5.
pub fn check_shortest(
    banks: u16,
    kind: u8,
    bi: u8,
    bc: u8,
    most: u32,
    room: usize,
    edition: u16,
) -> Result<(), Refusal>
    ensures { result ≡ checked (shortest_refusal banks kind bi bc most room) 0 edition }
{
    if !is_asked(banks, kind, bi, bc, most) {
        return Err(refuse(4, 0, edition));
    }
    if is_short(room, records_of(bi, bc)) {
        return Err(refuse(5, 0, edition));
    }
    Ok(())
}
