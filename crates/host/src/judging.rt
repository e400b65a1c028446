// Is the schedule legal and, if not, which record breaks which rule first? And is a pattern, however often it is repeated?
ghost use Rattle.std.specs.Prelude.{◌≡◌};
ghost use Rattle.promises.specs.Admit.{admitted};
ghost use Rattle.promises.specs.Judging.{judging};
ghost use Rattle.verdict_answers.specs.Verdicts.{verdict_of};
ghost use Rattle.host.specs.Promises.{PatternSaid};

use judgements::judging::{judge, judge_pattern};
use verdict_answers::verdict::{VerdictAnswer, pattern_of, verdict_of};

pub fn skv_judge(expected: u16, table: &[u8], schedule: &[u8]) -> VerdictAnswer
    ensures { result ≡ verdict_of (judging (admitted expected table.now) schedule.now) }
{
    verdict_of(judge(expected, table, schedule))
}

pub fn skv_judge_pattern(expected: u16, table: &[u8], pattern: &[u8], length: u32) -> VerdictAnswer
    ensures { PatternSaid (admitted expected table.now) pattern.now length result }
{
    pattern_of(judge_pattern(expected, table, pattern, length))
}
