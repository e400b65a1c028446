// Starts and runs: the controller that is lent lies in a local here.
use crate::told::{Numbers, Refused, State};
use answers::answer::Answer;
use controller::controller::Controller;
use controller::run::RunReport;
use desk::{run, start, step};
use host::running::{skv_run, skv_run_bytes, skv_run_later_bytes, skv_start, skv_step};
use host::second::{
    skv_run_straight, skv_run_straight_bytes, skv_run_straight_later_bytes, skv_step_straight,
};
use prints::InHex;
use records::refusal::Refusal;
use records::transaction::Transaction;
use std::io;
use std::io::Write;

pub(crate) fn starts<W: Write>(out: &mut W, expected: u16, table: &[u8]) -> io::Result<()> {
    let told = start(expected, table);
    match told.answer {
        Ok(edition) => write!(out, "start {edition}")?,
        Err(r) => write!(out, "start {}", Refused(r))?,
    }
    writeln!(out, "{}", State(told.controller))?;
    let told = skv_start(expected, table);
    writeln!(
        out,
        "skv_start {}{}",
        Numbers(told.answer),
        State(told.controller)
    )
}

// A run has room for twelve commands, a step for one and a byte more. The second engine's line differs from the plain one's in the name alone.
pub(crate) fn runs<W: Write>(
    out: &mut W,
    c: Controller,
    expected: u16,
    table: &[u8],
    list: &[Transaction],
    bytes: &[u8],
    count: u32,
) -> io::Result<()> {
    ran(
        out,
        "run",
        c,
        [0; 96],
        |c: &mut Controller, room: &mut [u8]| { run(c, expected, table, list, count, room) },
    )?;
    ran(
        out,
        "step",
        c,
        [0; 9],
        |c: &mut Controller, room: &mut [u8]| { step(c, expected, table, list, room) },
    )?;
    host_ran(
        out,
        "skv_run",
        c,
        [0; 96],
        |c: &mut Controller, room: &mut [u8]| { skv_run(c, expected, table, list, count, room) },
    )?;
    host_ran(
        out,
        "skv_run_straight",
        c,
        [0; 96],
        |c: &mut Controller, room: &mut [u8]| {
            skv_run_straight(c, expected, table, list, count, room)
        },
    )?;
    host_ran(
        out,
        "skv_step",
        c,
        [0; 9],
        |c: &mut Controller, room: &mut [u8]| { skv_step(c, expected, table, list, room) },
    )?;
    host_ran(
        out,
        "skv_step_straight",
        c,
        [0; 9],
        |c: &mut Controller, room: &mut [u8]| { skv_step_straight(c, expected, table, list, room) },
    )?;
    byte_runs(out, c, expected, table, bytes, count)
}

fn byte_runs<W: Write>(
    out: &mut W,
    c: Controller,
    expected: u16,
    table: &[u8],
    bytes: &[u8],
    count: u32,
) -> io::Result<()> {
    host_ran(
        out,
        "skv_run_bytes",
        c,
        [0; 96],
        |c: &mut Controller, room: &mut [u8]| {
            let told = skv_run_bytes(*c, expected, table, bytes, count, room);
            *c = told.controller;
            told.answer
        },
    )?;
    host_ran(
        out,
        "skv_run_straight_bytes",
        c,
        [0; 96],
        |c: &mut Controller, room: &mut [u8]| {
            let told = skv_run_straight_bytes(*c, expected, table, bytes, count, room);
            *c = told.controller;
            told.answer
        },
    )?;
    host_ran(
        out,
        "skv_run_later_bytes",
        c,
        [0; 96],
        |c: &mut Controller, room: &mut [u8]| {
            let told = skv_run_later_bytes(*c, expected, table, bytes, count, room);
            *c = told.controller;
            told.answer
        },
    )?;
    host_ran(
        out,
        "skv_run_straight_later_bytes",
        c,
        [0; 96],
        |c: &mut Controller, room: &mut [u8]| {
            let told = skv_run_straight_later_bytes(*c, expected, table, bytes, count, room);
            *c = told.controller;
            told.answer
        },
    )
}

fn ran<
    W: Write,
    const N: usize,
    F: FnOnce(&mut Controller, &mut [u8]) -> Result<RunReport, Refusal>,
>(out: &mut W, name: &str, mut c: Controller, mut room: [u8; N], run: F) -> io::Result<()>
    requires { F.IsAlwaysCallable run }
{
    match run(&mut c, &mut room) {
        Ok(r) => write!(out, "{name} {} {} {}", r.edition, r.commands, r.cycles)?,
        Err(r) => write!(out, "{name} {}", Refused(r))?,
    }
    writeln!(out, "{} {}", State(c), InHex(&room))
}

fn host_ran<W: Write, const N: usize, F: FnOnce(&mut Controller, &mut [u8]) -> Answer>(
    out: &mut W,
    name: &str,
    mut c: Controller,
    mut room: [u8; N],
    run: F,
) -> io::Result<()>
    requires { F.IsAlwaysCallable run }
{
    let answer = run(&mut c, &mut room);
    writeln!(
        out,
        "{name} {}{} {}",
        Numbers(answer),
        State(c),
        InHex(&room)
    )
}
