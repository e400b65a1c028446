// The table of 40 bytes: its writer. Reading it is `table::read_table`, which takes either size.
ghost use Rattle.std.specs.Prelude.{◌≡◌};
ghost use Rattle.records.specs.Told.{Leaves};
ghost use Rattle.records.specs.Table.{group_table_of, write_group_table};

use crate::table::{put_numbers, table_of, with_groups};
use ranges::range::check_table;
use records::refusal::Refusal;
use records::table::Table;
use std::array;

// The table of twenty numbers.
pub fn group_table_of(n: [u16; 20]) -> Table
    ensures { result ≡ group_table_of n }
{
    let first = table_of(array::from_fn(|i| n[i]));
    with_groups(first, n[16], n[17], n[18], n[19])
}

// Beside `write_table`: each has its own definition, and a function for both would need a longer contract than the two bodies.
#[tactic(auto, unfolding(records::specs::Table::write_group_table))]
pub fn write_group_table(n: [u16; 20], s: &mut [u8]) -> Result<u16, Refusal>
    ensures { Leaves (write_group_table n s.old) result s.new }
{
    let grouped = group_table_of(n);
    check_table(s.len() == 40, grouped)?;
    put_numbers(&n, s);
    Ok(grouped.edition)
}
