// Decoding into a lent run of records.
ghost use Rattle.std.specs.Prelude.{◌≡◌, ◌≤◌, length};
ghost use Rattle.records.specs.Transaction.{record_count, list_of};
ghost use Rattle.lists.specs.Decode.{plan, stored};

use crate::check::check_into;
use crate::record::{count_of, kth};
use records::refusal::Refusal;
use records::table::Table;
use records::transaction::Transaction;

// What a decoding answers, and how many it stores.
#[derive(Clone, Copy)]
pub struct Plan {
    pub n: usize,
    pub answer: Result<(u16, u32), Refusal>,
}

#[tactic(auto, using(crate::proofs::Checks::fine_sized, crate::proofs::Storing::plan_fine), unfolding(crate::specs::Decode::plan))]
pub fn planned(t: Table, later: bool, bytes: &[u8], places: usize) -> Plan
    ensures { result ≡ plan later t bytes.now places }
{
    match check_into(t, later, bytes, places) {
        Ok(()) => {
            let n = count_of(later, bytes.len());
            Plan {
                n,
                answer: Ok((t.edition, n as u32)),
            }
        }
        Err(r) => Plan {
            n: 0,
            answer: Err(r),
        },
    }
}

// Stores the first n transactions of the bytes from the slice's start.
#[tactic(auto, using(crate::proofs::Storing::stored_more))]
pub fn store(later: bool, bytes: &[u8], n: usize, list: &mut [Transaction])
    requires { (n ≤ record_count later (length bytes.now)) × (n ≤ length list.old) }
    ensures { list.new ≡ stored (list_of later bytes.now) n list.old }
{
    for k in 0..n {
        list[k] = kth(later, bytes, k);
    }
}
