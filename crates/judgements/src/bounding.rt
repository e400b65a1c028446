// By when must a transaction finish?
ghost use Rattle.std.specs.Prelude.{◌≡◌};
ghost use Rattle.promises.specs.Admit.{admitted};
ghost use Rattle.promises.specs.Bounds.{bounding};

use admission::admit::admit;
use builder::bound::tell_bound;
use records::refusal::Refusal;

// Numbers 1, 2, 10, 4; then the bound for (BI, BC) with the table's edition.
pub fn bound(expected: u16, table: &[u8], bi: u8, bc: u8) -> Result<(u16, u32), Refusal>
    ensures { result ≡ bounding (admitted expected table.now) bi bc }
{
    match admit(expected, table) {
        Ok(t) => tell_bound(t, bi, bc),
        Err(r) => Err(r),
    }
}
