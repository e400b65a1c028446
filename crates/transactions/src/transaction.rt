// The transaction, 4 bytes, which arrives at cycle 0. Module `later` has the one of 8 bytes.
ghost use Rattle.std.specs.Prelude.{◌≡◌, ◌+◌, ◌≤◌, length};
ghost use Rattle.records.specs.Told.{checked, over, Leaves};
ghost use Rattle.records.specs.Transaction.{transaction, transaction_at, bytes_of, transaction_refusal, read_transaction, write_transaction};

use ranges::fitting::check_by;
use records::refusal::{Refusal, refuse};
use records::transaction::Transaction;

// The transaction of the four bytes from a place on.
pub fn transaction_at(s: &[u8], at: usize) -> Transaction
    requires { at + 4 ≤ length s.now }
    ensures { result ≡ transaction_at s.now at }
{
    Transaction {
        kind: s[at],
        start: s[at + 1],
        bi: s[at + 2],
        bc: s[at + 3],
        arrival: 0,
    }
}

// Numbers 3 and 4.
pub fn check_transaction(size: usize, x: Transaction) -> Result<(), Refusal>
    ensures { result ≡ checked (transaction_refusal size x) 0 0 }
{
    check_by(4, 0, size, x)
}

#[tactic(auto, unfolding(records::specs::Transaction::read_transaction))]
pub fn read_transaction(s: &[u8]) -> Result<Transaction, Refusal>
    ensures { result ≡ read_transaction s.now }
{
    if s.len() != 4 {
        return Err(refuse(3, 0, 0));
    }
    let x = transaction_at(s, 0);
    check_transaction(s.len(), x)?;
    Ok(x)
}

// Writes the four bytes from the buffer's start.
pub fn put_transaction(x: Transaction, s: &mut [u8])
    requires { 4 ≤ length s.old }
    ensures { s.new ≡ over (bytes_of x) s.old }
{
    s[0] = x.kind;
    s[1] = x.start;
    s[2] = x.bi;
    s[3] = x.bc;
}

#[tactic(auto, unfolding(records::specs::Transaction::write_transaction))]
pub fn write_transaction(x: Transaction, s: &mut [u8]) -> Result<u16, Refusal>
    ensures { Leaves (write_transaction x s.old) result s.new }
{
    check_transaction(s.len(), x)?;
    put_transaction(x, s);
    Ok(0)
}
