// Every call on one case.
use crate::captured::{Question, captures, found};
use crate::one_record::{
    capture_record_read, capture_record_written, group_table_written, records_read,
    records_written, table_written,
};
use crate::reading::transactions_read;
use crate::running::{runs, starts};
use crate::schedules::{bounded, host_schedules, judged_schedule};
use crate::serving::{asked, asked_built};
use desk::start;
use records::transaction::Transaction;
use std::io;
use std::io::Write;
use tables::house::table_a;

pub(crate) fn of(kind: u8, start: u8, bi: u8, bc: u8) -> Transaction {
    Transaction {
        kind,
        start,
        bi,
        bc,
        arrival: 0,
    }
}

// What the calls are made on, beside a table. A controller that is started as one edition is run by another's table, where they differ.
#[derive(Clone, Copy)]
pub(crate) struct Inputs<'a> {
    pub started_as: u16,
    pub expected: u16,
    pub list: [Transaction; 3],
    pub bytes: &'a [u8],
    pub count: u32,
}

pub(crate) fn case<W: Write>(out: &mut W, numbers: [u16; 16], c: Inputs<'_>) -> io::Result<()> {
    let table = table_written(out, numbers)?;
    all_calls(out, &table, c)
}

pub(crate) fn group_case<W: Write>(
    out: &mut W,
    numbers: [u16; 20],
    c: Inputs<'_>,
) -> io::Result<()> {
    let table = group_table_written(out, numbers)?;
    all_calls(out, &table, c)
}

fn all_calls<W: Write>(out: &mut W, table: &[u8], c: Inputs<'_>) -> io::Result<()> {
    let Inputs {
        started_as,
        expected,
        list,
        bytes,
        count,
    } = c;
    let x = list[0];
    let question = Question {
        kind: x.kind,
        bi: x.bi,
        bc: x.bc,
        most: count,
    };
    records_read(out, table, bytes)?;
    records_written(out, count, x)?;
    capture_record_read(out, bytes)?;
    capture_record_written(out, expected, x)?;
    captures(out, expected, table, bytes)?;
    found(out, expected, table, question)?;
    transactions_read(out, expected, table, bytes, list)?;
    judged_schedule(out, expected, table, &list, count)?;
    host_schedules(out, expected, table, &list, bytes)?;
    asked(out, expected, table, &list, bytes, bytes)?;
    bounded(out, expected, table, x)?;
    starts(out, expected, table)?;
    let fresh = start(started_as, table).controller;
    runs(out, fresh, expected, table, &list, bytes, count)
}

// The schedule of a read, a refresh and a read, by table A with RFC 50, and a list.
pub(crate) fn of_built<W: Write>(
    out: &mut W,
    list: [Transaction; 3],
    bytes: &[u8],
) -> io::Result<()> {
    let table = table_written(
        out,
        [7, 8, 4, 4, 10, 10, 28, 38, 6, 32, 10, 8, 6, 12, 6, 50],
    )?;
    let one = [of(0, 0, 1, 1), of(2, 0, 0, 0), of(0, 0, 1, 1)];
    asked_built(out, &table, &one, &list, bytes)
}

// A capture by table A.
pub(crate) fn capture<W: Write>(out: &mut W, bytes: &[u8]) -> io::Result<()> {
    let table = table_written(out, table_a())?;
    captures(out, 7, &table, bytes)
}

// A question for the shortest pattern of table A.
pub(crate) fn pattern_asked<W: Write>(out: &mut W, question: Question) -> io::Result<()> {
    let table = table_written(out, table_a())?;
    found(out, 7, &table, question)
}
