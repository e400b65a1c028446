// The text of a pattern.
ghost use Rattle.std.specs.Prelude.{◌+◌, ◌*◌, ◌≤◌, length};
ghost use Rattle.records.specs.Command.{commands_from};
ghost use Rattle.text.specs.Puts.{Puts};
ghost use Rattle.patterned.specs.Pattern.{length_line, pattern_text};

use printed::many::put_command_lines;
use text::{put_number, put_number_then, put_word};

pub fn put_length_line(
    out: &mut [u8],
    at: usize,
    edition: u16,
    least: u32,
    commands: usize,
) -> usize
    requires { at + length (length_line edition least commands) ≤ length out.old }
    ensures { Puts (length_line edition least commands) at result out.old out.new }
{
    let a = put_word(out, at, b"edition ");
    let b = put_number(out, a, edition as u64);
    let c = put_word(out, b, b" length ");
    let d = put_number(out, c, least as u64);
    let e = put_word(out, d, b" commands ");
    put_number_then(out, e, commands as u64, b'\n')
}

pub fn put_pattern(
    out: &mut [u8],
    edition: u16,
    least: u32,
    pattern: &[u8],
    written: usize,
) -> usize
    requires { (8 * written ≤ length pattern.now) × (62 + 25 * written ≤ length out.old) }
    ensures { Puts (pattern_text edition least (commands_from pattern.now written 0)) 0 result out.old out.new }
{
    let next = put_length_line(out, 0, edition, least, written);
    put_command_lines(out, next, pattern, written)
}
