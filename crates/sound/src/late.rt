// "Each run is lent the whole list so far, and the state tells how many of it were lent before" (document 02, request 9).
ghost use Rattle.std.specs.Prelude.{◌≡◌, ◌*◌, ◌≤◌, ltb, length};
ghost use Rattle.std.proofs.Math.ListN.{get_elem?};
ghost use Rattle.records.specs.Transaction.{later_from};
ghost use Rattle.rules.specs.Pieces.{first_below};

use transactions::later::later_at;

// More than the list has, which is n.
pub fn is_over(n: usize, lent: u32) -> bool
    ensures { result ≡ ltb n lent }
{
    n < lent as usize
}

// The arrival of the first that was not lent before, if there is one, is below the cycle.
pub fn is_late(list: &[u8], n: usize, lent: u32, cycle: u64) -> bool
    requires { 8 * n ≤ length list.now }
    ensures { result ≡ first_below (get_elem? (later_from list.now n 0) lent) cycle }
{
    let k = lent as usize;
    k < n && (later_at(list, 8 * k).arrival as u64) < cycle
}
