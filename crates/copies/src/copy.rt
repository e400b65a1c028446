// One copy of a schedule: what is answered on it, its shift, and rule 10.
ghost use Rattle.std.specs.Prelude.{◌≡◌, ◌*◌, ◌≤◌, ◌<◌};
ghost use Rattle.records.specs.Tests.{pick};
ghost use Rattle.rules.specs.declared.verdict.Verdict.TheVariants.{Accepted, Refused};
ghost use Rattle.rules.specs.declared.verdict.Rule.TheVariants.{End};
ghost use Rattle.timing.specs.Kept.{told};
ghost use Rattle.broken.specs.ByState.{shut_by};

use rules::verdict::{Rule, Verdict};
use timing::kept::{Kept, kept_open};

// The verdict on a copy, and the state after it.
#[derive(Clone, Copy)]
pub struct Copied {
    pub state: Kept,
    pub verdict: Verdict,
}

// The cycles that copy k + 1 of a pattern is later: at most 4 × (2³² − 1).
pub fn shift_of(length: u32, k: u32) -> u64
    requires { k < 5 }
    ensures { (result ≡ length * k) × (result ≤ 17179869180) }
{
    length as u64 * k as u64
}

// No bank of the table is open.
pub fn all_shut(s: Kept, banks: u16) -> bool
    requires { banks ≤ 16 }
    ensures { result ≡ shut_by (told s) banks }
{
    let mut shut = true;
    for b in 0..banks as usize {
        shut = !kept_open(s.banks[b]) & shut;
    }
    shut
}

// Rule 10: "at the end a bank is open; the record number is then the count"
pub fn end_of(shut: bool, count: u32) -> Verdict
    ensures { result ≡ pick shut Accepted (Refused End count) }
{
    if shut {
        Verdict::Accepted
    } else {
        Verdict::Refused(Rule::End, count)
    }
}
