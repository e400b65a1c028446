// A line for each command, and one for each finish.
ghost use Rattle.std.specs.Prelude.{◌+◌, ◌*◌, ◌≤◌, length, take};
ghost use Rattle.records.specs.Command.{commands_from};
ghost use Rattle.text.specs.Puts.{Puts};
ghost use Rattle.lines.specs.Lines.{command_lines, finish_lines};

use commands::command::command_at;
use lines::line::{put_command_line, put_finish_line};

// No command's line is longer than 25 bytes.
pub fn put_command_lines(out: &mut [u8], at: usize, s: &[u8], n: usize) -> usize
    requires { (8 * n ≤ length s.now) × (at + 25 * n ≤ length out.old) }
    ensures { Puts (command_lines (commands_from s.now n 0)) at result out.old out.new × (result ≤ at + 25 * n) }
{
    let mut next = at;
    for i in 0..n {
        next = put_command_line(out, next, command_at(s, 8 * i));
    }
    next
}

// No finish's line is longer than 39 bytes, whatever its numbers.
pub fn put_finish_lines(out: &mut [u8], at: usize, s: &[u32], n: usize) -> usize
    requires { (n ≤ length s.now) × (at + 39 * n ≤ length out.old) }
    ensures { Puts (finish_lines 0 (take n s.now)) at result out.old out.new × (result ≤ at + 39 * n) }
{
    let mut next = at;
    for i in 0..n {
        next = put_finish_line(out, next, i, s[i]);
    }
    next
}
