// What is the shortest pattern for a type, BI and BC?
ghost use Rattle.promises.specs.Admit.{admitted};
ghost use Rattle.promises.specs.Patterns.{ShortestTold};

use admission::admit::admit;
use records::refusal::Refusal;
use search::call::shortest;

// Numbers 1, 2, 10, 4, 5, 13; then the least length with the table's edition, and its first pattern as command records from the start of `pattern`.
pub fn shortest_pattern(
    expected: u16,
    table: &[u8],
    kind: u8,
    bi: u8,
    bc: u8,
    most: u32,
    pattern: &mut [u8],
) -> Result<(u16, u32, usize), Refusal>
    ensures { ShortestTold (admitted expected table.now) kind bi bc most pattern.old pattern.new result }
{
    match admit(expected, table) {
        Ok(t) => shortest(t, kind, bi, bc, most, pattern),
        Err(r) => Err(r),
    }
}
