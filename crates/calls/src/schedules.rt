// Schedules, verdicts and the bound. The second engine's line differs from the plain one's in the name alone.
use crate::told::{Numbers, Refused};
use answers::answer::Answer;
use desk::schedule;
use host::bounding::skv_bound;
use host::judging::{skv_judge, skv_judge_pattern};
use host::schedules::{skv_schedule, skv_schedule_bytes, skv_schedule_later_bytes};
use host::second::{
    skv_schedule_straight, skv_schedule_straight_bytes, skv_schedule_straight_later_bytes,
};
use prints::{InHex, Row};
use records::refusal::Refusal;
use records::transaction::Transaction;
use std::io;
use std::io::Write;
use verdict_answers::verdict::VerdictAnswer;

pub(crate) fn built<W: Write>(
    out: &mut W,
    answer: Result<(u16, usize), Refusal>,
) -> io::Result<()> {
    match answer {
        Ok((edition, commands)) => write!(out, "schedule {edition} {commands}"),
        Err(r) => write!(out, "schedule {}", Refused(r)),
    }
}

// The schedule of the list is judged, with all that lies beyond it in the room.
pub(crate) fn judged_schedule<W: Write>(
    out: &mut W,
    expected: u16,
    table: &[u8],
    list: &[Transaction],
    length: u32,
) -> io::Result<()> {
    let mut commands = [0; 96];
    let mut finishes = [9; 4];
    built(
        out,
        schedule(expected, table, list, &mut commands, &mut finishes),
    )?;
    writeln!(out, "{} {}", Row(&finishes), InHex(&commands))?;
    verdict(out, "skv_judge", skv_judge(expected, table, &commands))?;
    verdict(
        out,
        "skv_judge_pattern",
        skv_judge_pattern(expected, table, &commands, length),
    )
}

fn verdict<W: Write>(out: &mut W, name: &str, a: VerdictAnswer) -> io::Result<()> {
    writeln!(
        out,
        "{name} {} {} {} {} {} {}",
        a.refused, a.position, a.edition, a.rule, a.copy, a.record
    )
}

pub(crate) fn host_schedules<W: Write>(
    out: &mut W,
    expected: u16,
    table: &[u8],
    list: &[Transaction],
    bytes: &[u8],
) -> io::Result<()> {
    host_built(
        out,
        "skv_schedule",
        |commands: &mut [u8], finishes: &mut [u32]| {
            skv_schedule(expected, table, list, commands, finishes)
        },
    )?;
    host_built(
        out,
        "skv_schedule_straight",
        |commands: &mut [u8], finishes: &mut [u32]| {
            skv_schedule_straight(expected, table, list, commands, finishes)
        },
    )?;
    host_built(
        out,
        "skv_schedule_bytes",
        |commands: &mut [u8], finishes: &mut [u32]| {
            skv_schedule_bytes(expected, table, bytes, commands, finishes)
        },
    )?;
    host_built(
        out,
        "skv_schedule_straight_bytes",
        |commands: &mut [u8], finishes: &mut [u32]| {
            skv_schedule_straight_bytes(expected, table, bytes, commands, finishes)
        },
    )?;
    host_built(
        out,
        "skv_schedule_later_bytes",
        |commands: &mut [u8], finishes: &mut [u32]| {
            skv_schedule_later_bytes(expected, table, bytes, commands, finishes)
        },
    )?;
    host_built(
        out,
        "skv_schedule_straight_later_bytes",
        |commands: &mut [u8], finishes: &mut [u32]| {
            skv_schedule_straight_later_bytes(expected, table, bytes, commands, finishes)
        },
    )
}

fn host_built<W: Write, F: FnOnce(&mut [u8], &mut [u32]) -> Answer>(
    out: &mut W,
    name: &str,
    build: F,
) -> io::Result<()>
    requires { F.IsAlwaysCallable build }
{
    let mut commands = [0; 96];
    let mut finishes = [9; 4];
    let answer = build(&mut commands, &mut finishes);
    writeln!(
        out,
        "{name} {}{} {}",
        Numbers(answer),
        Row(&finishes),
        InHex(&commands)
    )
}

pub(crate) fn bounded<W: Write>(
    out: &mut W,
    expected: u16,
    table: &[u8],
    x: Transaction,
) -> io::Result<()> {
    writeln!(
        out,
        "skv_bound {}",
        Numbers(skv_bound(expected, table, x.bi, x.bc))
    )
}
