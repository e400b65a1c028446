// What the caller is told.
ghost use Rattle.std.specs.Prelude.{◌≡◌};
ghost use Rattle.records.specs.Told.{refusal};

// A refusal: document 01's number, the position it shows, and the table's edition (0 where no table is given or the table itself is refused). The
// number is no enum: C and the helpline are told it as a number, and the definition `first_failed` speaks of it.
#[derive(Clone, Copy, Debug, PartialEq, Eq)]
pub struct Refusal {
    pub number: u8,
    pub position: u32,
    pub edition: u16,
}

pub fn refuse(number: u8, position: u32, edition: u16) -> Refusal
    ensures { result ≡ refusal number position edition }
{
    Refusal {
        number,
        position,
        edition,
    }
}
