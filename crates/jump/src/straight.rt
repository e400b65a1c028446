// The second engine, which promises what the plain one does.
use crate::build::build;
use crate::run::run;
use engine::build::Schedule;
use engine::promise::Engine;
use engine::run::Ran;
use heads::due::Counts;
use records::table::Table;
use timing::kept::Kept;

// From command to command.
pub struct Straight;

impl Engine for Straight {
    fn run(
        t: Table,
        list: &[u8],
        n: usize,
        all: Counts,
        start: Kept,
        count: u32,
        buffer: &mut [u8],
    ) -> Ran {
        run(t, list, n, all, start, count, buffer)
    }

    fn build(t: Table, list: &[u8], n: usize, buffer: &mut [u8], finishes: &mut [u32]) -> Schedule {
        build(t, list, n, buffer, finishes)
    }
}
