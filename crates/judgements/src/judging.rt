// Is the schedule legal and, if not, which record breaks which rule first? And is a pattern, however often it is repeated?
ghost use Rattle.std.specs.Prelude.{◌≡◌};
ghost use Rattle.promises.specs.Admit.{admitted};
ghost use Rattle.promises.specs.Judging.{judging, PatternTold};

use admission::admit::admit;
use judge::schedule::judge_schedule;
use records::refusal::Refusal;
use rules::verdict::{PatternVerdict, Verdict};

// Numbers 1, 2, 10, 7; then the verdict with the table's edition.
pub fn judge(expected: u16, table: &[u8], schedule: &[u8]) -> Result<(u16, Verdict), Refusal>
    ensures { result ≡ judging (admitted expected table.now) schedule.now }
{
    match admit(expected, table) {
        Ok(t) => judge_schedule(t, schedule),
        Err(r) => Err(r),
    }
}

// Numbers 1, 2, 10, 7, 8; then a verdict on every number of copies, with the table's edition.
pub fn judge_pattern(
    expected: u16,
    table: &[u8],
    pattern: &[u8],
    length: u32,
) -> Result<(u16, PatternVerdict), Refusal>
    ensures { PatternTold (admitted expected table.now) pattern.now length result }
{
    match admit(expected, table) {
        Ok(t) => judge::pattern::judge_pattern(t, pattern, length),
        Err(r) => Err(r),
    }
}
