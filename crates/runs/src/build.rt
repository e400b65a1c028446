// The lines of a build.
ghost use Rattle.std.specs.Prelude.{◌≡◌, ◌*◌, ◌≤◌, length};
ghost use Rattle.records.specs.Transaction.{record_count, list_of};
ghost use Rattle.lists.specs.Check.{check_bytes};
ghost use Rattle.promises.specs.Admit.{admitted};
ghost use Rattle.promises.specs.Schedules.{Schedules};

use crate::cases::Build;
use crate::told::command_lines;
use desk::{schedule_bytes, schedule_later_bytes};
use prints::Refused;
use records::refusal::Refusal;
use std::io;
use std::io::Write;

// A list that fits has at most 256 transactions, so that more slots than 256 are as good as 256.
pub(crate) fn lines<W: Write>(out: &mut W, later: bool, c: Build<'_>) -> io::Result<()> {
    let name = if later { "build_later" } else { "build" };
    let mut bytes = [0u8; 65536];
    let mut places = [0u32; 256];
    let room = usize::from(c.room);
    let slots = usize::from(c.slots).min(256);
    let commands = &mut bytes[..room];
    let finishes = &mut places[..slots];
    let n = count_of(later, c.list);
    let answer = schedule_of(c.expected, c.table, later, c.list, commands, finishes);
    match answer {
        Ok((edition, written)) => { built(out, name, edition, commands, written, finishes, n) }
        Err(r) => writeln!(out, "{name} {}", Refused(r)),
    }
}

fn count_of(later: bool, list: &[u8]) -> usize
    ensures { result ≡ record_count later (length list.now) }
{
    if later {
        list.len() / 8
    } else {
        list.len() / 4
    }
}

fn schedule_of(
    expected: u16,
    table: &[u8],
    later: bool,
    list: &[u8],
    commands: &mut [u8],
    finishes: &mut [u32],
) -> Result<(u16, usize), Refusal>
    ensures { Schedules (λ τ. check_bytes later τ list.now) (admitted expected table.now) (list_of later list.now) commands.old commands.new finishes.old finishes.new result }
{
    if later {
        schedule_later_bytes(expected, table, list, commands, finishes)
    } else {
        schedule_bytes(expected, table, list, commands, finishes)
    }
}

// The first n of the finishes are the list's.
fn built<W: Write>(
    out: &mut W,
    name: &str,
    edition: u16,
    commands: &[u8],
    written: usize,
    finishes: &[u32],
    n: usize,
) -> io::Result<()>
    requires { (8 * written ≤ length commands.now) × (n ≤ length finishes.now) }
{
    writeln!(out, "{name} edition {edition} commands {written}")?;
    command_lines(out, &commands[..8 * written])?;
    for (i, cycle) in finishes[..n].iter().enumerate() {
        writeln!(out, "finish {i} {cycle}")?;
    }
    Ok(())
}
