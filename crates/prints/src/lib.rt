// What the programs of stored cases share of their printing. What is printed no contract says: it is held to the stored output. The text of the
// listing, of the trace and of a pattern, which is proved, is `text`'s and `lines`'s.
#![tactic(auto)]

use records::refusal::Refusal;
use std::fmt;
use std::fmt::Display;

// A refusal's number, its position and the table's edition.
#[derive(Clone, Copy)]
pub struct Refused(pub Refusal);

impl Display for Refused {
    fn fmt<W: fmt::Write>(&self, f: &mut fmt::Formatter<W>) -> fmt::Result {
        let Refusal {
            number,
            position,
            edition,
        } = self.0;
        write!(f, "refused {number} at {position} edition {edition}")
    }
}

// Each byte as two digits.
#[derive(Clone, Copy)]
pub struct InHex<'a>(pub &'a [u8]);

impl Display for InHex<'_> {
    fn fmt<W: fmt::Write>(&self, f: &mut fmt::Formatter<W>) -> fmt::Result {
        for b in self.0 {
            write!(f, "{b:02x}")?;
        }
        Ok(())
    }
}

// Each behind a space.
#[derive(Clone, Copy)]
pub struct Row<'a, T>(pub &'a [T]);

impl<T: Display> Display for Row<'_, T> {
    fn fmt<W: fmt::Write>(&self, f: &mut fmt::Formatter<W>) -> fmt::Result {
        for x in self.0 {
            write!(f, " {x}")?;
        }
        Ok(())
    }
}
