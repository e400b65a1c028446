// What one record of the list leaves, by plain numbers.
ghost use Rattle.std.specs.Prelude.{◌≡◌, ◌+◌, ◌*◌, ◌<◌, min, max};
ghost use Rattle.records.specs.Tests.{pick, within};
ghost use Rattle.records.specs.Transaction.{transaction};
ghost use Rattle.serves.specs.Check.{slot, faulty_by};
ghost use Rattle.faults.specs.Turn.{marks_after};

use crate::due::{due_count, key_of};

// The greatest place in the data queue of a data command that is due; one past the greatest number inside the list; the lowest number at fault,
// the list's length where there is none.
#[derive(Clone, Copy)]
pub struct Marks {
    pub top: u64,
    pub high: u32,
    pub least: u32,
}

// The number of a data command's kind.
fn is_data(c: u8) -> bool
    ensures { result ≡ within 1 4 c }
{
    1 <= c && c <= 4
}

pub fn faulty_by(due: u32, c: u8, held: u16, y: u16, key: u64, top: u64, high: u32) -> bool
    ensures { result ≡ faulty_by due c held y key top high }
{
    let other = held != y || key < top;
    let late = u32::from(y) + 1 < high;
    due == 0 || (is_data(c) && other) || (c == 5 && late)
}

// The lower of two numbers, where the test holds.
pub fn lower_if(test: bool, y: u32, least: u32) -> u32
    ensures { result ≡ pick test (min y least) least }
{
    if test { y.min(least) } else { least }
}

// The greater of two numbers, where the test holds.
pub fn higher_if(test: bool, a: u64, most: u64) -> u64
    ensures { result ≡ pick test (max a most) most }
{
    if test { a.max(most) } else { most }
}

pub fn number_if(test: bool, y: u16, held: u16) -> u16
    ensures { result ≡ pick test y held }
{
    if test { y } else { held }
}

// A command's place among counts.
pub fn slot_of(y: usize, c: u8, b: u8) -> usize
    requires { (y < 256) × (c < 6) × (b < 16) }
    ensures { (result ≡ slot y c b) × (result < 24576) }
{
    y * 96 + usize::from(c) * 16 + usize::from(b)
}

// The marks after a record of kind c, to bank b, under number y, whose transaction has this type, start, BI and BC; `held` is the number that the
// latest ACT of the bank carries.
pub fn marks_after(
    banks: u16,
    kind: u8,
    start: u8,
    bi: u8,
    bc: u8,
    c: u8,
    b: u8,
    y: u16,
    held: u16,
    m: Marks,
) -> Marks
    ensures { result ≡ marks_after banks (transaction kind start bi bc) c b y held m }
{
    let due = due_count(banks, kind, start, bi, bc, c, b);
    let key = key_of(banks, start, y, c, b);
    let bad = faulty_by(due, c, held, y, key, m.top, m.high);
    let placed = is_data(c) && due != 0;
    Marks {
        top: higher_if(placed, key, m.top),
        high: m.high.max(u32::from(y) + 1),
        least: lower_if(bad, u32::from(y), m.least),
    }
}
