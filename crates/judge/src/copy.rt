// One copy of a schedule.
ghost use Rattle.std.specs.Prelude.{◌≡◌, suc, ◌≤◌, ◌<◌};
ghost use Rattle.records.specs.Command.{commands_in};
ghost use Rattle.rules.specs.declared.verdict.Verdict.TheVariants.{Accepted};
ghost use Rattle.rules.specs.Verdict.{judge_from};
ghost use Rattle.rules.specs.Pattern.{copy};
ghost use Rattle.rules.proofs.history.JudgeState.{Judging};
ghost use Rattle.timing.specs.Kept.{told};
ghost use Rattle.copies.specs.Seen.{record_count, whole};

use copies::copy::Copied;
use copies::grouping::{OneGroup, SeveralGroups};
use copies::judging::judge_records;
use timing::kept::Kept;

// Copy k + 1 of the schedule, after k copies that the state sums up.
pub fn judge_copy(grouping: SeveralGroups, s: &[u8], length: u32, k: u32, start: Kept) -> Copied
    requires few { record_count s.now ≤ 69632 }
    requires five { k < 5 }
    requires sums { Judging grouping.table (whole length s.now k) (told start) }
    ensures verdict { result.verdict ≡ judge_from grouping.table (copy length (commands_in s.now) k) 0 (whole length s.now k) }
    ensures state { result.verdict ≡ Accepted → Judging grouping.table (whole length s.now (suc k)) (told result.state) }
{
    let SeveralGroups { table, near, .. } = grouping;
    if table.groups == 1 {
        judge_records(OneGroup { table, near }, s, length, k, start)
    } else {
        judge_records(grouping, s, length, k, start)
    }
}
