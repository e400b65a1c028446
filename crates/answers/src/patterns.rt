// The shortest pattern as a struct of plain numbers.
ghost use Rattle.std.specs.Prelude.{◌≡◌, ◌<◌};
ghost use Rattle.answers.specs.Answers.{shortest_of, shortest_found, records_found};

use crate::answer::{from_16, refused};
use records::refusal::Refusal;

// `length` is the least; `count` is how many records were written.
#[repr(C)]
#[derive(Clone, Copy)]
pub struct PatternAnswer {
    pub refused: u32,
    pub position: u32,
    pub edition: u32,
    pub length: u32,
    pub count: u32,
}

pub fn found(edition: u16, least: u32, count: u32) -> PatternAnswer
    ensures { result ≡ shortest_found edition least count }
{
    PatternAnswer {
        refused: 0,
        position: 0,
        edition: from_16(edition),
        length: least,
        count,
    }
}

// A pattern's records are counted in 32 bits: there are at most 6.
pub fn shortest_of(s: Result<(u16, u32, usize), Refusal>) -> PatternAnswer
    requires { records_found s < 4294967296 }
    ensures { result ≡ shortest_of s }
{
    match s {
        Ok((e, least, n)) => found(e, least, n as u32),
        Err(x) => {
            let r = refused(x);
            PatternAnswer {
                refused: r.refused,
                position: r.position,
                edition: r.edition,
                length: 0,
                count: 0,
            }
        }
    }
}
