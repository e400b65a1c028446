// What the program `pattern` prints for any bytes that it reads. The text always fits into 256 bytes: six records of at most 25, and a first line of
// at most 62.
#![tactic(auto)]

pub mod line;

ghost use Rattle.std.specs.Prelude.{◌≤◌, length};
ghost use Rattle.text.specs.Puts.{Writes};
ghost use Rattle.patterned.specs.Pattern.{Told, PatternOf};

use desk::shortest_pattern;
use line::put_pattern;
use printed::answer::put_refusal;
use records::little::num_at;
use records::refusal::refuse;

// The desk's call, in a room for six records.
fn pattern_told(
    expected: u16,
    table: &[u8],
    kind: u8,
    bi: u8,
    bc: u8,
    most: u32,
    out: &mut [u8],
) -> usize
    requires { 256 ≤ length out.old }
    ensures { Writes (Told expected table.now kind bi bc most) result out.old out.new }
{
    let mut room = [0u8; 48];
    let pattern = &mut room[..];
    let answer = shortest_pattern(expected, table, kind, bi, bc, most, pattern);
    match answer {
        Ok((edition, least, written)) => { put_pattern(out, edition, least, pattern, written) }
        Err(x) => put_refusal(out, x),
    }
}

// What the program prints for these bytes, from the buffer's start, and its length.
pub fn pattern_of(input: &[u8], out: &mut [u8]) -> usize
    requires { 256 ≤ length out.old }
    ensures { Writes (PatternOf input.now) result out.old out.new }
{
    let n = input.len();
    if n < 6 {
        return put_refusal(out, refuse(1, 0, 0));
    }
    let end = n - 4;
    let kind = input[end];
    let bi = input[n - 3];
    let bc = input[n - 2];
    let most = u32::from(input[n - 1]);
    pattern_told(num_at(input, 0), &input[2..end], kind, bi, bc, most, out)
}
