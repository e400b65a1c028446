// Makes every public call to which something is lent, and every call of the host, on the cases below. What it must print is stored beside it,
// from `model/`, which has the same cases.
#![tactic(auto)]

mod captured;
mod each;
mod one_record;
mod reading;
mod running;
mod schedules;
mod serving;
mod told;

use captured::Question;
use each::{Inputs, capture, case, group_case, of, of_built, pattern_asked};
use std::io;
use tables::house::{table_a, table_d, table_t};
use transactions::later::arriving;

fn main(rt: HostRuntime) -> io::Result<()> {
    let out = &mut rt.stdout();
    // A write, a read of the same bank, and a read of two banks and two words
    case(
        out,
        table_a(),
        Inputs {
            started_as: 7,
            expected: 7,
            list: [of(1, 0, 1, 1), of(0, 0, 1, 1), of(0, 7, 2, 2)],
            bytes: &[0, 3, 1, 2, 1, 4, 2, 1],
            count: 60,
        },
    )?;
    // No two numbers of the table alike; each pair of data kinds
    case(
        out,
        table_t(),
        Inputs {
            started_as: 9,
            expected: 9,
            list: [of(0, 0, 1, 2), of(1, 1, 1, 2), of(0, 2, 1, 1)],
            bytes: &[0, 0, 1, 2, 1, 1, 1, 2, 0, 2, 1, 1],
            count: 49,
        },
    )?;
    // More transactions than places
    case(
        out,
        table_a(),
        Inputs {
            started_as: 7,
            expected: 7,
            list: [of(0, 1, 1, 1), of(1, 2, 1, 1), of(0, 3, 1, 1)],
            bytes: &[0, 0, 1, 1, 0, 1, 1, 1, 0, 2, 1, 1, 0, 3, 1, 1],
            count: 0,
        },
    )?;
    // Too little room, and bytes that are no multiple of 4
    case(
        out,
        table_a(),
        Inputs {
            started_as: 7,
            expected: 7,
            list: [of(0, 0, 8, 16), of(0, 0, 1, 1), of(0, 0, 1, 1)],
            bytes: &[0, 0, 1, 1, 0],
            count: 1000,
        },
    )?;
    // A transaction out of range
    case(
        out,
        table_t(),
        Inputs {
            started_as: 9,
            expected: 9,
            list: [of(0, 0, 1, 1), of(0, 6, 1, 1), of(2, 0, 1, 1)],
            bytes: &[0, 0, 1, 1, 0, 0, 17, 1],
            count: 5,
        },
    )?;
    // Another edition than the table's; a controller of no edition
    case(
        out,
        table_t(),
        Inputs {
            started_as: 0,
            expected: 7,
            list: [of(0, 0, 1, 1), of(0, 0, 1, 1), of(0, 0, 1, 1)],
            bytes: &[0, 0, 1, 1],
            count: 5,
        },
    )?;
    case(
        out,
        table_t(),
        Inputs {
            started_as: 7,
            expected: 9,
            list: [of(0, 0, 1, 1), of(0, 0, 1, 1), of(0, 0, 1, 1)],
            bytes: &[0, 0, 1, 1, 0, 1, 1, 1],
            count: 5,
        },
    )?;
    // No table
    case(
        out,
        [0; 16],
        Inputs {
            started_as: 7,
            expected: 7,
            list: [of(0, 0, 1, 1), of(0, 0, 1, 1), of(0, 0, 1, 1)],
            bytes: &[],
            count: 5,
        },
    )?;
    // A refresh between a write and a read, and one alone
    case(
        out,
        [70, 8, 4, 4, 10, 10, 28, 38, 6, 32, 10, 8, 6, 12, 6, 50],
        Inputs {
            started_as: 70,
            expected: 70,
            list: [of(1, 0, 1, 1), of(2, 0, 0, 0), of(0, 0, 1, 1)],
            bytes: &[2, 0, 0, 0],
            count: 60,
        },
    )?;
    // A refresh where the table has none, and one that is out of range
    case(
        out,
        table_a(),
        Inputs {
            started_as: 7,
            expected: 7,
            list: [of(0, 0, 1, 1), of(0, 1, 1, 1), of(2, 0, 0, 0)],
            bytes: &[0, 0, 1, 1, 2, 0, 0, 1],
            count: 5,
        },
    )?;
    // Four groups: a write and a read of one group, and a read of two others
    group_case(
        out,
        table_d(),
        Inputs {
            started_as: 7,
            expected: 7,
            list: [of(1, 0, 1, 1), of(0, 4, 1, 1), of(0, 1, 2, 2)],
            bytes: &[0, 3, 1, 2, 1, 7, 2, 1],
            count: 60,
        },
    )?;
    // A long RRD below the short one
    group_case(
        out,
        [
            7, 8, 4, 4, 10, 10, 28, 38, 6, 32, 10, 8, 6, 12, 6, 0, 4, 9, 5, 13,
        ],
        Inputs {
            started_as: 7,
            expected: 7,
            list: [of(0, 0, 1, 1), of(0, 0, 1, 1), of(0, 0, 1, 1)],
            bytes: &[],
            count: 5,
        },
    )?;
    // Arrivals, equal ones among them, and two records of 8 bytes
    case(
        out,
        table_a(),
        Inputs {
            started_as: 7,
            expected: 7,
            list: [
                arriving(of(1, 0, 1, 1), 3),
                arriving(of(0, 0, 1, 1), 50),
                arriving(of(0, 7, 2, 2), 50),
            ],
            bytes: &[0, 3, 1, 2, 0, 0, 0, 0, 1, 4, 2, 1, 25, 0, 0, 0],
            count: 60,
        },
    )?;
    // Arrivals that descend
    case(
        out,
        table_a(),
        Inputs {
            started_as: 7,
            expected: 7,
            list: [
                arriving(of(0, 0, 1, 1), 5),
                arriving(of(0, 0, 1, 1), 5),
                arriving(of(0, 0, 1, 1), 4),
            ],
            bytes: &[0, 0, 1, 1, 0, 1, 0, 0, 0, 1, 1, 1, 255, 0, 0, 0],
            count: 5,
        },
    )?;
    // The last arrival there is, and one more
    case(
        out,
        table_a(),
        Inputs {
            started_as: 7,
            expected: 7,
            list: [
                arriving(of(1, 0, 1, 1), 20000000),
                arriving(of(0, 1, 1, 1), 20000000),
                arriving(of(0, 2, 1, 1), 20000001),
            ],
            bytes: &[2, 0, 0, 0, 0, 45, 49, 1],
            count: 5,
        },
    )?;
    // 12 bytes are no multiple of 8
    case(
        out,
        table_a(),
        Inputs {
            started_as: 7,
            expected: 7,
            list: [of(0, 0, 1, 1), of(0, 0, 1, 1), arriving(of(0, 0, 1, 1), 1)],
            bytes: &[0, 0, 1, 1, 0, 0, 0, 0, 0, 0, 1, 1],
            count: 5,
        },
    )?;
    // The schedule of a read, a refresh and a read: of these, lent and of 4 bytes each
    of_built(
        out,
        [of(0, 0, 1, 1), of(2, 0, 0, 0), of(0, 0, 1, 1)],
        &[0, 0, 1, 1, 2, 0, 0, 0, 0, 0, 1, 1],
    )?;
    // Of a write in the last one's place; of the three as 8 bytes each, with arrivals
    of_built(
        out,
        [of(0, 0, 1, 1), of(2, 0, 0, 0), of(1, 0, 1, 1)],
        &[
            0, 0, 1, 1, 25, 0, 0, 0, 2, 0, 0, 0, 25, 0, 0, 0, 0, 0, 1, 1, 99, 0, 0, 0,
        ],
    )?;
    // Of three refreshes; of the first two, as 4 bytes each, and of the first, as 8
    of_built(
        out,
        [of(2, 0, 0, 0), of(2, 0, 0, 0), of(2, 0, 0, 0)],
        &[0, 0, 1, 1, 2, 0, 0, 0],
    )?;
    // Captures that go round the wrap, with a tick: accepted, and with the RDA too early; a gap of 65,536
    let captures: [&[u8]; 3] = [
        &[250, 255, 0, 0, 255, 255, 255, 0, 4, 0, 2, 0],
        &[250, 255, 0, 0, 255, 255, 255, 0, 3, 0, 2, 0],
        &[
            250, 255, 0, 0, 255, 255, 255, 0, 255, 255, 255, 0, 4, 0, 2, 0,
        ],
    ];
    for bytes in captures {
        capture(out, bytes)?;
    }
    // The shortest patterns of two writes to each of two banks and of one read to each of three; none up to 37; too many records
    for (kind, bi, bc, most) in [
        (1, 2, 2, 128),
        (0, 3, 1, 128),
        (0, 1, 1, 37),
        (0, 1, 6, 128),
    ] {
        pattern_asked(out, Question { kind, bi, bc, most })?;
    }
    Ok(())
}
