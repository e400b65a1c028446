// The lines of a run.
ghost use Rattle.std.specs.Prelude.{◌*◌, ◌≤◌, length};
ghost use Rattle.records.specs.Transaction.{list_of};
ghost use Rattle.lists.specs.Check.{check_bytes};
ghost use Rattle.controller.specs.Run.{LeavesRun};
ghost use Rattle.promises.specs.Admit.{admitted};
ghost use Rattle.promises.specs.Running.{running};

use crate::cases::Run;
use crate::state::State;
use crate::told::command_lines;
use controller::controller::Controller;
use controller::run::{RunReport, RunTold};
use desk::{run_bytes, run_later_bytes};
use prints::Refused;
use std::io;
use std::io::Write;

pub(crate) fn lines<W: Write>(out: &mut W, later: bool, c: Run<'_>) -> io::Result<()> {
    let name = if later { "run_later" } else { "run" };
    let mut bytes = [0u8; 65536];
    let room = usize::from(c.room);
    let commands = &mut bytes[..room];
    let told = run_of(
        c.controller,
        c.expected,
        c.table,
        later,
        c.list,
        c.count,
        commands,
    );
    match told.answer {
        Ok(report) => ran(out, name, report, told.controller, commands),
        Err(r) => writeln!(out, "{name} {}", Refused(r)),
    }
}

fn run_of(
    c: Controller,
    expected: u16,
    table: &[u8],
    later: bool,
    list: &[u8],
    most: u32,
    commands: &mut [u8],
) -> RunTold
    ensures { LeavesRun (running (λ τ. check_bytes later τ list.now) (admitted expected table.now) c (list_of later list.now) most commands.old) result commands.new }
{
    if later {
        run_later_bytes(c, expected, table, list, most, commands)
    } else {
        run_bytes(c, expected, table, list, most, commands)
    }
}

fn ran<W: Write>(
    out: &mut W,
    name: &str,
    r: RunReport,
    after: Controller,
    commands: &[u8],
) -> io::Result<()>
    requires { 8 * r.commands ≤ length commands.now }
{
    let edition = r.edition;
    let written = r.commands as usize;
    let cycles = r.cycles;
    writeln!(
        out,
        "{name} edition {edition} commands {written} cycles {cycles}"
    )?;
    command_lines(out, &commands[..8 * written])?;
    writeln!(out, "{}", State(after))
}
