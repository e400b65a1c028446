// The judge of schedules.
ghost use Rattle.std.specs.Prelude.{◌≡◌, ◌≤◌};
ghost use Rattle.records.specs.Command.{commands_in};
ghost use Rattle.rules.specs.Verdict.{judge};
ghost use Rattle.rules.specs.State.{Held};
ghost use Rattle.judge.specs.Answer.{judged};
ghost use Rattle.copies.specs.Seen.{record_count};

use crate::answer::check_schedule;
use crate::copy::judge_copy;
use copies::grouping::SeveralGroups;
use records::refusal::Refusal;
use records::table::Table;
use rules::verdict::Verdict;
use timing::kept::kept_fresh;

// The verdict on records that number 7 lets pass. A schedule is the first copy of itself, 0 cycles later.
pub fn verdict_on(t: Table, s: &[u8]) -> Verdict
    requires { Held t × (record_count s.now ≤ 69632) }
    ensures { result ≡ judge t (commands_in s.now) }
{
    judge_copy(SeveralGroups::new(t), s, 0, 0, kept_fresh(t.edition)).verdict
}

#[tactic(auto, unfolding(crate::specs::Answer::judged))]
pub fn judge_schedule(t: Table, s: &[u8]) -> Result<(u16, Verdict), Refusal>
    requires { Held t }
    ensures { result ≡ judged t s.now }
{
    check_schedule(s.len(), t.edition)?;
    Ok((t.edition, verdict_on(t, s)))
}
