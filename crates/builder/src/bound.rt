// The bound for (BI, BC), or number 4.
ghost use Rattle.std.specs.Prelude.{◌≡◌};
ghost use Rattle.records.specs.Told.{checked};
ghost use Rattle.builder.specs.Bound.{bound_refusal, bound_told};

use bounds::bound::bound_of;
use records::refusal::{Refusal, refuse};
use records::table::Table;
use records::tests::is_within;

// Number 4.
pub fn check_bound(banks: u16, bi: u8, bc: u8, edition: u16) -> Result<(), Refusal>
    ensures { result ≡ checked (bound_refusal banks bi bc) 0 edition }
{
    let few = is_within(1, 16, bc as u16) && bi as u16 <= banks;
    let good = is_within(1, 16, bi as u16) && few;
    if !good {
        return Err(refuse(4, 0, edition));
    }
    Ok(())
}

#[tactic(auto, unfolding(crate::specs::Bound::bound_told))]
pub fn tell_bound(t: Table, bi: u8, bc: u8) -> Result<(u16, u32), Refusal>
    ensures { result ≡ bound_told t bi bc }
{
    check_bound(t.banks, bi, bc, t.edition)?;
    Ok((t.edition, bound_of(t, bi, bc)))
}
