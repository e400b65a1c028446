// Is the schedule legal and, if not, which record breaks which rule first? And is a pattern, however often it is repeated?
ghost use Rattle.std.specs.Prelude.{◌≡◌};
ghost use Rattle.promises.specs.Admit.{admitted};
ghost use Rattle.promises.specs.Judging.{judging};
ghost use Rattle.verdict_answers.specs.Verdicts.{verdict_of};
ghost use Rattle.host.specs.Promises.{PatternSaid};

use verdict_answers::verdict::VerdictAnswer;

#[unsafe(no_mangle)]
pub extern "C" fn skv_judge(expected: u16, table: &[u8], schedule: &[u8]) -> VerdictAnswer
    ensures { result ≡ verdict_of (judging (admitted expected table.now) schedule.now) }
{
    host::judging::skv_judge(expected, table, schedule)
}

#[unsafe(no_mangle)]
pub extern "C" fn skv_judge_pattern(
    expected: u16,
    table: &[u8],
    pattern: &[u8],
    length: u32,
) -> VerdictAnswer
    ensures { PatternSaid (admitted expected table.now) pattern.now length result }
{
    host::judging::skv_judge_pattern(expected, table, pattern, length)
}
