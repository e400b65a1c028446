// The transaction of 8 bytes, which "adds a 32-bit arrival" (document 02, request 9).
ghost use Rattle.std.specs.Prelude.{◌≡◌, ◌+◌, ◌≤◌, length};
ghost use Rattle.records.specs.Told.{checked, over, Leaves};
ghost use Rattle.records.specs.Transaction.{arriving, later_at, later_bytes, later_refusal, read_later, write_later};

use crate::transaction::{put_transaction, transaction_at};
use ranges::fitting::check_by;
use records::little::{num_32_at, put_32};
use records::refusal::{Refusal, refuse};
use records::transaction::Transaction;

// A transaction that arrives at a cycle.
pub fn arriving(x: Transaction, arrival: u32) -> Transaction
    ensures { result ≡ arriving x arrival }
{
    Transaction { arrival, ..x }
}

// The transaction of the eight bytes from a place on.
pub fn later_at(s: &[u8], at: usize) -> Transaction
    requires { at + 8 ≤ length s.now }
    ensures { result ≡ later_at s.now at }
{
    arriving(transaction_at(s, at), num_32_at(s, at + 4))
}

// Numbers 3 and 4.
pub fn check_later(size: usize, x: Transaction) -> Result<(), Refusal>
    ensures { result ≡ checked (later_refusal size x) 0 0 }
{
    check_by(8, 20000000, size, x)
}

#[tactic(auto, unfolding(records::specs::Transaction::read_later))]
pub fn read_later(s: &[u8]) -> Result<Transaction, Refusal>
    ensures { result ≡ read_later s.now }
{
    if s.len() != 8 {
        return Err(refuse(3, 0, 0));
    }
    let x = later_at(s, 0);
    check_later(s.len(), x)?;
    Ok(x)
}

// Writes the eight bytes from the buffer's start.
pub fn put_later(x: Transaction, s: &mut [u8])
    requires { 8 ≤ length s.old }
    ensures { s.new ≡ over (later_bytes x) s.old }
{
    put_transaction(x, s);
    put_32(s, 4, x.arrival);
}

#[tactic(auto, unfolding(records::specs::Transaction::write_later))]
pub fn write_later(x: Transaction, s: &mut [u8]) -> Result<u16, Refusal>
    ensures { Leaves (write_later x s.old) result s.new }
{
    check_later(s.len(), x)?;
    put_later(x, s);
    Ok(0)
}
