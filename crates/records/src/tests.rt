// Tests on Bools and numbers: each is what its definition says.
ghost use Rattle.std.specs.Prelude.{◌≡◌, ◌&&◌, not};
ghost use Rattle.records.specs.Tests.{within};

pub fn both_of(a: bool, b: bool) -> bool
    ensures { result ≡ (a && b) }
{
    a && b
}

pub fn not_of(a: bool) -> bool
    ensures { result ≡ not a }
{
    !a
}

pub fn is_within(lo: u16, hi: u16, x: u16) -> bool
    ensures { result ≡ within lo hi x }
{
    lo <= x && x <= hi
}
