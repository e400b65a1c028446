// The whole text of an answer, from the buffer's start: a schedule's, or a refusal's; and how every other text begins.
ghost use Rattle.std.specs.Prelude.{◌+◌, ◌*◌, ◌≤◌, length, take};
ghost use Rattle.records.specs.Command.{commands_from};
ghost use Rattle.text.specs.Puts.{Puts};
ghost use Rattle.lines.specs.Lines.{commands_text, schedule_text, refused_line};

use crate::many::{put_command_lines, put_finish_lines};
use lines::line::{put_first_line, put_refused_line};
use records::refusal::Refusal;

pub fn put_commands(out: &mut [u8], edition: u16, commands: &[u8], written: usize) -> usize
    requires { (8 * written ≤ length commands.now) × (44 + 25 * written ≤ length out.old) }
    ensures { Puts (commands_text edition (commands_from commands.now written 0)) 0 result out.old out.new × (result ≤ 44 + 25 * written) }
{
    let next = put_first_line(out, 0, edition, written);
    put_command_lines(out, next, commands, written)
}

pub fn put_schedule(
    out: &mut [u8],
    edition: u16,
    commands: &[u8],
    written: usize,
    finishes: &[u32],
    n: usize,
) -> usize
    requires { (8 * written ≤ length commands.now) × (n ≤ length finishes.now) × (44 + 25 * written + 39 * n ≤ length out.old) }
    ensures { Puts (schedule_text edition (commands_from commands.now written 0) (take n finishes.now)) 0 result out.old out.new }
{
    let next = put_commands(out, edition, commands, written);
    put_finish_lines(out, next, finishes, n)
}

pub fn put_refusal(out: &mut [u8], x: Refusal) -> usize
    requires { 40 ≤ length out.old }
    ensures { Puts (refused_line x) 0 result out.old out.new }
{
    put_refused_line(out, 0, x)
}
