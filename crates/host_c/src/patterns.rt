// What is the shortest pattern for a type, BI and BC?
ghost use Rattle.promises.specs.Admit.{admitted};
ghost use Rattle.host.specs.Promises.{PatternFound};

use answers::patterns::PatternAnswer;

#[unsafe(no_mangle)]
pub extern "C" fn skv_shortest_pattern(
    expected: u16,
    table: &[u8],
    kind: u8,
    bi: u8,
    bc: u8,
    most: u32,
    pattern: &mut [u8],
) -> PatternAnswer
    ensures { PatternFound (admitted expected table.now) kind bi bc most pattern.old pattern.new result }
{
    host::patterns::skv_shortest_pattern(expected, table, kind, bi, bc, most, pattern)
}
