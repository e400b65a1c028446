// Numbers 3 and 4, in that order, of records of 8 bytes where `later`, else of 4.
ghost use Rattle.std.specs.Prelude.{◌≡◌, ◌≤◌, length};
ghost use Rattle.records.specs.Transaction.{record_count, list_of, fits_after};
ghost use Rattle.lists.specs.Check.{range_from, check_bytes, check_into};

use crate::record::{count_of, is_whole, kth};
use ranges::fitting::fits_by;
use records::refusal::{Refusal, refuse};
use records::table::Table;
use records::transaction::Transaction;

// A transaction in range, after one that arrived at a.
fn fits_after(a: u32, t: Table, x: Transaction) -> bool
    ensures { result ≡ fits_after a t x }
{
    a <= x.arrival && fits_by(20000000, t.banks, t.rfc, x)
}

// Number 4 in a run of records, few enough for their numbers to fit a position.
fn check_range(t: Table, later: bool, s: &[u8]) -> Result<(), Refusal>
    requires { record_count later (length s.now) ≤ 256 }
    ensures { result ≡ range_from t 0 (list_of later s.now) 0 }
{
    let mut arrived = 0;
    for k in 0..count_of(later, s.len()) {
        let x = kth(later, s, k);
        if !fits_after(arrived, t, x) {
            return Err(refuse(4, k as u32, t.edition));
        }
        arrived = x.arrival;
    }
    Ok(())
}

// The bytes of a list that is to be decoded into so many places.
#[tactic(auto, unfolding(crate::specs::Check::check_into))]
pub fn check_into(t: Table, later: bool, s: &[u8], places: usize) -> Result<(), Refusal>
    ensures { result ≡ check_into later t s.now places }
{
    let n = count_of(later, s.len());
    if is_whole(later, s.len()) && n <= 256 && n <= places {
        check_range(t, later, s)
    } else {
        Err(refuse(3, 0, t.edition))
    }
}

#[tactic(auto, using(crate::proofs::Checks::into_256))]
pub fn check_bytes(t: Table, later: bool, s: &[u8]) -> Result<(), Refusal>
    ensures { result ≡ check_bytes later t s.now }
{
    check_into(t, later, s, 256)
}
