// Does a schedule serve a list?
ghost use Rattle.std.specs.Prelude.{◌≡◌, ◌≤◌};
ghost use Rattle.records.specs.Transaction.{later_from};
ghost use Rattle.records.specs.Command.{commands_in};
ghost use Rattle.rules.specs.Verdict.{Legal};
ghost use Rattle.heads.specs.Queue.{Listed};
ghost use Rattle.copies.specs.Seen.{record_count};
ghost use Rattle.serves.specs.Serves.{Says};
ghost use Rattle.serves.specs.Answer.{ServesAnswers};
ghost use Rattle.serves.specs.Check.{answer_of};

use crate::pass::pass;
use judge::answer::check_schedule;
use judge::schedule::verdict_on;
use records::refusal::Refusal;
use records::table::Table;
use rules::verdict::Verdict;
use serves::answer::Served;

// The lowest number at fault, below n; else n where a number was outside the list.
pub fn answer_of(n: u32, lowest: u32, outside: bool) -> Served
    ensures { result ≡ answer_of n lowest outside }
{
    if lowest < n {
        Served::AtFault(lowest)
    } else if outside {
        Served::AtFault(n)
    } else {
        Served::Serves
    }
}

// The answer on a schedule that the judge accepts.
pub fn served(t: Table, list: &[u8], n: usize, s: &[u8]) -> Served
    requires { Listed t list.now n × (record_count s.now ≤ 69632) × Legal t (commands_in s.now) }
    ensures { Says t (later_from list.now n 0) (commands_in s.now) result }
{
    let f = pass(t, list, n, s);
    answer_of(n as u32, f.lowest, f.outside)
}

// "the judge's verdict comes first". The list and the schedule are those that numbers 3, 4 and 7 let pass.
pub fn serves(t: Table, list: &[u8], n: usize, s: &[u8]) -> Served
    requires { Listed t list.now n × (record_count s.now ≤ 69632) }
    ensures { Says t (later_from list.now n 0) (commands_in s.now) result }
{
    match verdict_on(t, s) {
        Verdict::Refused(x, i) => Served::Refused(x, i),
        Verdict::Accepted => served(t, list, n, s),
    }
}

// Number 7; then the answer, with the table's edition. The list is one that numbers 3 and 4 let pass.
pub fn serves_schedule(t: Table, list: &[u8], n: usize, s: &[u8]) -> Result<(u16, Served), Refusal>
    requires { Listed t list.now n }
    ensures { ServesAnswers t (later_from list.now n 0) s.now result }
{
    check_schedule(s.len(), t.edition)?;
    Ok((t.edition, serves(t, list, n, s)))
}
