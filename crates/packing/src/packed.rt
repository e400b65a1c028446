// Lists in the bytes that the engines read, eight to a transaction: a lent run of records, gathered, and records of 4 bytes, widened.
ghost use Rattle.std.specs.Prelude.{◌≡◌, ◌+◌, ◌*◌, ◌≤◌, length};
ghost use Rattle.records.specs.Told.{put_at};
ghost use Rattle.records.specs.Transaction.{transaction, arriving, later_bytes, transactions_in};
ghost use Rattle.lists.specs.Packed.{packed};

use records::little::put_32;
use records::transaction::Transaction;
use transactions::transaction::transaction_at;

// A transaction's five numbers, from a place on.
#[tactic(auto, using(lists::proofs::Packing::put_eight, lists::proofs::Packing::length_eight))]
fn put(s: &mut [u8], at: usize, kind: u8, start: u8, bi: u8, bc: u8, arrival: u32)
    requires { at + 8 ≤ length s.old }
    ensures { s.new ≡ put_at s.old at (later_bytes (arriving (transaction kind start bi bc) arrival)) }
{
    s[at] = kind;
    s[at + 1] = start;
    s[at + 2] = bi;
    s[at + 3] = bc;
    put_32(s, at + 4, arrival);
}

// The first n of a lent run of records: reads the k-th, and puts its numbers in their place.
#[tactic(auto, using(lists::proofs::Packing::packed_none, lists::proofs::Packing::packed_more))]
pub fn gather(list: &[Transaction], n: usize) -> [u8; 2048]
    requires { (n ≤ length list.now) × (n ≤ 256) }
    ensures { result ≡ packed n list.now }
{
    let mut bytes = [0u8; 2048];
    for k in 0..n {
        let x = list[k];
        put(&mut bytes, 8 * k, x.kind, x.start, x.bi, x.bc, x.arrival);
    }
    bytes
}

// The first n of a list's records of 4 bytes, each of which "is arrival 0".
#[tactic(auto, using(lists::proofs::Packing::packed_none, lists::proofs::Packing::length_packed, lists::proofs::Packing::widened_more))]
pub fn widen(s: &[u8], n: usize) -> [u8; 2048]
    requires { (4 * n ≤ length s.now) × (n ≤ 256) }
    ensures { result ≡ packed n (transactions_in s.now) }
{
    let mut bytes = [0u8; 2048];
    for k in 0..n {
        let x = transaction_at(s, 4 * k);
        put(&mut bytes, 8 * k, x.kind, x.start, x.bi, x.bc, 0);
    }
    bytes
}
