// The text of a capture that was judged.
ghost use Rattle.std.specs.Prelude.{◌+◌, ◌*◌, ◌≤◌, length};
ghost use Rattle.records.specs.Command.{commands_from};
ghost use Rattle.text.specs.Puts.{Puts};
ghost use Rattle.traced.specs.Trace.{verdict_line, trace_text};

use lines::line::{put_accepted_line, put_broken_line};
use printed::answer::put_commands;
use promises::numbers::rule_number;
use rules::verdict::Verdict;

// No verdict's line is longer than 41 bytes.
pub fn put_verdict(out: &mut [u8], at: usize, v: Verdict) -> usize
    requires { at + 41 ≤ length out.old }
    ensures { Puts (verdict_line v) at result out.old out.new }
{
    match v {
        Verdict::Accepted => put_accepted_line(out, at),
        Verdict::Refused(rule, n) => put_broken_line(out, at, n, rule_number(rule)),
    }
}

pub fn put_trace(out: &mut [u8], edition: u16, commands: &[u8], written: usize, v: Verdict) -> usize
    requires { (8 * written ≤ length commands.now) × (85 + 25 * written ≤ length out.old) }
    ensures { Puts (trace_text edition (commands_from commands.now written 0) v) 0 result out.old out.new }
{
    let next = put_commands(out, edition, commands, written);
    put_verdict(out, next, v)
}
