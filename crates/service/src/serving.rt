// Does a schedule serve a list: behind the desk's calls.
ghost use Rattle.std.specs.Prelude.{◌/◌, ◌≡◌, length, Ok};
ghost use Rattle.records.specs.Table.{Accepted};
ghost use Rattle.records.specs.Transaction.{later_in, list_of};
ghost use Rattle.heads.specs.Queue.{Listed};
ghost use Rattle.lists.specs.Check.{check_list, check_bytes};
ghost use Rattle.lists.specs.Packed.{held};
ghost use Rattle.serves.specs.Answer.{ServesAnswers};
ghost use Rattle.admission.specs.Admit.{admitted, LetIn};
ghost use Rattle.service.specs.Serving.{Serving, ServesChecked};

use admission::admit::{WayIn, admit};
use lists::check::check_bytes;
use packing::packed::widen;
use pass::schedule::serves_schedule;
use records::refusal::Refusal;
use records::table::Table;
use serves::answer::Served;

// Of a list of 8-byte records that fits an accepted table.
pub fn serves_packed(t: Table, list: &[u8], schedule: &[u8]) -> Result<(u16, Served), Refusal>
    requires { Listed t list.now (length list.now / 8) }
    ensures { ServesAnswers t (later_in list.now) schedule.now result }
{
    serves_schedule(t, list, list.len() / 8, schedule)
}

// The same of records of 8 bytes where `later`, else of 4, which are widened.
pub fn serves_fine(
    t: Table,
    later: bool,
    list: &[u8],
    schedule: &[u8],
) -> Result<(u16, Served), Refusal>
    requires { Accepted t × (check_bytes later t list.now ≡ Ok tt) }
    ensures { ServesAnswers t (list_of later list.now) schedule.now result }
{
    if later {
        serves_packed(t, list, schedule)
    } else {
        let n = list.len() / 4;
        let bytes = widen(list, n);
        let end = 8 * n;
        serves_packed(t, &bytes[..end], schedule)
    }
}

// Numbers 3, 4 and 7, by an accepted table; then the answer.
#[tactic(auto, unfolding(crate::specs::Serving::ServesChecked))]
pub fn serves_by(
    t: Table,
    later: bool,
    list: &[u8],
    schedule: &[u8],
) -> Result<(u16, Served), Refusal>
    requires { Accepted t }
    ensures { ServesChecked (check_bytes later t list.now) t (list_of later list.now) schedule.now result }
{
    match check_bytes(t, later, list) {
        Ok(()) => serves_fine(t, later, list, schedule),
        Err(r) => Err(r),
    }
}

// Numbers 1, 2, 10, 3, 4 and 7; then the answer, with the table's edition.
#[tactic(auto, using(admission::proofs::Laws::told_accepted), unfolding(crate::specs::Serving::Serving))]
pub fn serves_records(
    expected: u16,
    table: &[u8],
    later: bool,
    list: &[u8],
    schedule: &[u8],
) -> Result<(u16, Served), Refusal>
    ensures { Serving (λ τ. check_bytes later τ list.now) (admitted expected table.now) (list_of later list.now) schedule.now result }
{
    match admit(expected, table) {
        Ok(t) => serves_by(t, later, list, schedule),
        Err(r) => Err(r),
    }
}

// The same of a lent run of records, gathered.
pub fn serves_held(w: WayIn, bytes: [u8; 2048], schedule: &[u8]) -> Result<(u16, Served), Refusal>
    requires { LetIn w }
    ensures { Serving (λ τ. check_list τ (held w.n bytes)) w.table (held w.n bytes) schedule.now result }
{
    let end = 8 * w.n;
    match w.table {
        Ok(t) => serves_by(t, true, &bytes[..end], schedule),
        Err(r) => Err(r),
    }
}
