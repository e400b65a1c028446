// Whether what was counted of a transaction is what is due under it, bank by bank.
ghost use Rattle.std.specs.Prelude.{◌≡◌, ◌<◌, eqb};
ghost use Rattle.serves.specs.Check.{due_count, slot, bank_agrees, number_at};

use crate::due::due_count;
use crate::turn::slot_of;
use records::transaction::Transaction;

// A kind is counted as often as it is due, of transaction y, at bank b.
pub fn agrees_at(banks: u16, x: Transaction, y: usize, c: u8, b: u8, counts: &[u32; 24576]) -> bool
    requires { (y < 256) × (c < 6) × (b < 16) }
    ensures { result ≡ eqb (number_at counts.now (slot y c b)) (due_count banks x c b) }
{
    let due = due_count(banks, x.kind, x.start, x.bi, x.bc, c, b);
    let i = slot_of(y, c, b);
    counts[i] == due
}

// Each kind is.
pub fn bank_agrees(banks: u16, x: Transaction, y: usize, b: u8, counts: &[u32; 24576]) -> bool
    requires { (y < 256) × (b < 16) }
    ensures { result ≡ bank_agrees banks x y (number_at counts.now) b }
{
    agrees_at(banks, x, y, 5, b, counts)
        && agrees_at(banks, x, y, 4, b, counts)
        && agrees_at(banks, x, y, 3, b, counts)
        && agrees_at(banks, x, y, 2, b, counts)
        && agrees_at(banks, x, y, 1, b, counts)
        && agrees_at(banks, x, y, 0, b, counts)
}
