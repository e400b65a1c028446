// Which transactions number 3 and number 4 refuse.
ghost use Rattle.std.specs.Prelude.{◌≡◌};
ghost use Rattle.records.specs.Told.{checked};
ghost use Rattle.records.specs.Transaction.{transaction, moves_data, refreshes, fits_in, fits_by, refusal_by};

use records::refusal::{Refusal, refuse};
use records::tests::is_within;
use records::transaction::Transaction;

// A read or a write: "BI and BC are 1 to 16"; "Start must be below banks and BI at most banks" (document 02, request 2).
pub fn moves_data(banks: u16, kind: u8, start: u8, bi: u8, bc: u8) -> bool
    ensures { result ≡ moves_data banks (transaction kind start bi bc) }
{
    kind <= 1
        && is_within(1, 16, u16::from(bi))
        && is_within(1, 16, u16::from(bc))
        && u16::from(start) < banks
        && u16::from(bi) <= banks
}

// "A transaction of type 2, with the other three bytes 0, is a refresh; it's refused by number 4 when RFC is 0" (document 02, request 5).
pub fn refreshes(rfc: u16, kind: u8, start: u8, bi: u8, bc: u8) -> bool
    ensures { result ≡ refreshes rfc (transaction kind start bi bc) }
{
    kind == 2 && rfc != 0 && start == 0 && bi == 0 && bc == 0
}

// A transaction of a table with so many banks and this RFC.
pub fn fits_in(banks: u16, rfc: u16, kind: u8, start: u8, bi: u8, bc: u8) -> bool
    ensures { result ≡ fits_in banks rfc (transaction kind start bi bc) }
{
    refreshes(rfc, kind, start, bi, bc) || moves_data(banks, kind, start, bi, bc)
}

// The same, of one that arrives at the latest cycle or before.
pub fn fits_by(latest: u32, banks: u16, rfc: u16, x: Transaction) -> bool
    ensures { result ≡ fits_by latest banks rfc x }
{
    x.arrival <= latest && fits_in(banks, rfc, x.kind, x.start, x.bi, x.bc)
}

// Numbers 3 and 4 of a transaction of so many bytes, where its record has `need` and holds arrivals up to the latest.
pub fn check_by(need: usize, latest: u32, size: usize, x: Transaction) -> Result<(), Refusal>
    ensures { result ≡ checked (refusal_by need latest size x) 0 0 }
{
    if size != need {
        return Err(refuse(3, 0, 0));
    }
    if !fits_by(latest, 16, 1, x) {
        return Err(refuse(4, 0, 0));
    }
    Ok(())
}
