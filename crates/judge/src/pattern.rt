// The judge of repeated patterns.
ghost use Rattle.std.specs.Prelude.{◌≡◌, ◌≤◌};
ghost use Rattle.records.specs.Command.{commands_in};
ghost use Rattle.rules.specs.Pattern.{copies};
ghost use Rattle.rules.specs.State.{Held};
ghost use Rattle.judge.specs.Answer.{PatternAnswers};
ghost use Rattle.copies.specs.Seen.{record_count};

use crate::answer::check_pattern;
use crate::copy::judge_copy;
use copies::grouping::SeveralGroups;
use records::refusal::Refusal;
use records::table::Table;
use rules::verdict::{PatternVerdict, Verdict};
use timing::kept::kept_fresh;

// The verdict on five copies, which is that on any number from five on.
pub fn judge_five(t: Table, s: &[u8], length: u32) -> PatternVerdict
    requires { Held t × (record_count s.now ≤ 69632) }
    ensures { result ≡ copies t length (commands_in s.now) 5 }
{
    let grouping = SeveralGroups::new(t);
    let mut state = kept_fresh(t.edition);
    for k in 0..5 {
        let copied = judge_copy(grouping, s, length, k, state);
        match copied.verdict {
            Verdict::Refused(x, i) => return PatternVerdict::Refused(x, k + 1, i),
            Verdict::Accepted => state = copied.state,
        }
    }
    PatternVerdict::Accepted
}

pub fn judge_pattern(t: Table, s: &[u8], length: u32) -> Result<(u16, PatternVerdict), Refusal>
    requires { Held t }
    ensures { PatternAnswers t s.now length result }
{
    check_pattern(s.len(), length, t.edition)?;
    Ok((t.edition, judge_five(t, s, length)))
}
