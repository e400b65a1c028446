// A run of records, of 8 bytes each where `later`, else of 4. `later` is a value, since the definitions (`list_of`, `check_bytes`) take it.
ghost use Rattle.std.specs.Prelude.{◌≡◌, ◌%◌, ◌<◌, eqb, length};
ghost use Rattle.records.specs.Transaction.{record_size, record_count, kth_of};

use records::transaction::Transaction;
use transactions::later::later_at;
use transactions::transaction::transaction_at;

// How many of them so many bytes hold.
pub fn count_of(later: bool, size: usize) -> usize
    ensures { result ≡ record_count later size }
{
    if later { size / 8 } else { size / 4 }
}

// So many bytes are whole records.
pub fn is_whole(later: bool, size: usize) -> bool
    ensures { result ≡ eqb (size % record_size later) 0 }
{
    if later { size % 8 == 0 } else { size % 4 == 0 }
}

// The k-th transaction.
pub fn kth(later: bool, s: &[u8], k: usize) -> Transaction
    requires { k < record_count later (length s.now) }
    ensures { result ≡ kth_of later s.now k }
{
    if later {
        later_at(s, 8 * k)
    } else {
        transaction_at(s, 4 * k)
    }
}
