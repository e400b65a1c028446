// Numbers 1, 2 and 10, which every call that takes a table checks first; and, for a lent run of records, number 3 by its length alone.
ghost use Rattle.std.specs.Prelude.{◌≡◌};
ghost use Rattle.admission.specs.Admit.{expects, admitted, by_length, way_in};

use records::refusal::{Refusal, refuse};
use records::table::Table;
use tables::table::read_table;

// The table, if its edition is the expected one.
fn expect(expected: u16, t: Table) -> Result<Table, Refusal>
    ensures { result ≡ expects expected t }
{
    if t.edition == expected {
        Ok(t)
    } else {
        Err(refuse(10, u32::from(t.edition), t.edition))
    }
}

// The one way in for a table.
#[tactic(auto, unfolding(crate::specs::Admit::admitted))]
pub fn admit(expected: u16, table: &[u8]) -> Result<Table, Refusal>
    ensures { result ≡ admitted expected table.now }
{
    match read_table(table) {
        Ok(t) => expect(expected, t),
        Err(r) => Err(r),
    }
}

// How many records of a lent run are gathered, and the table; or none, and the refusal.
#[derive(Clone, Copy)]
pub struct WayIn {
    pub n: usize,
    pub table: Result<Table, Refusal>,
}

// No record of a run of more than 256 is looked at.
fn within(t: Table, n: usize) -> WayIn
    ensures { result ≡ by_length n t }
{
    if n <= 256 {
        WayIn { n, table: Ok(t) }
    } else {
        WayIn {
            n: 0,
            table: Err(refuse(3, 0, t.edition)),
        }
    }
}

// The one way in for a table and a lent run of n records.
pub fn admit_lent(expected: u16, table: &[u8], n: usize) -> WayIn
    ensures { result ≡ way_in n (admitted expected table.now) }
{
    match admit(expected, table) {
        Ok(t) => within(t, n),
        Err(r) => WayIn {
            n: 0,
            table: Err(r),
        },
    }
}
