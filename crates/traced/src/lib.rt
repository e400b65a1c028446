// What the program `trace` prints for any bytes that it reads. The text always fits into 1,741,000 bytes: 69,632 commands of at most 25, a first
// line of at most 44, and a verdict's of at most 41.
#![tactic(auto)]

pub mod verdict;

ghost use Rattle.std.specs.Prelude.{◌≡◌, ◌≤◌, length};
ghost use Rattle.traced.specs.Trace.{empty_room, call_text, behind_text, trace_of, Writes};

use desk::judge_capture;
use printed::answer::put_refusal;
use records::little::num_at;
use records::refusal::refuse;
use verdict::put_trace;

// The desk's call, with room for the commands of 69,632 records.
fn trace_call(expected: u16, table: &[u8], capture: &[u8], out: &mut [u8]) -> usize
    requires { 1741000 ≤ length out.old }
    ensures { Writes (call_text expected table.now capture.now) result out.old out.new }
{
    let mut room = command_buffer();
    let commands = &mut room[..];
    let answer = judge_capture(expected, table, capture, commands);
    match answer {
        Ok((edition, written, v)) => { put_trace(out, edition, commands, written, v) }
        Err(x) => put_refusal(out, x),
    }
}

// The table is the next 32 bytes, or all where there are fewer.
fn trace_behind(expected: u16, s: &[u8], out: &mut [u8]) -> usize
    requires { 1741000 ≤ length out.old }
    ensures { Writes (behind_text expected s.now) result out.old out.new }
{
    if s.len() < 32 {
        let n = s.len();
        return trace_call(expected, s, &s[n..], out);
    }
    trace_call(expected, &s[..32], &s[32..], out)
}

// What the program prints for these bytes, from the buffer's start, and its length.
pub fn trace_of(input: &[u8], out: &mut [u8]) -> usize
    requires { 1741000 ≤ length out.old }
    ensures { Writes (trace_of input.now) result out.old out.new }
{
    if input.len() < 2 {
        return put_refusal(out, refuse(1, 0, 0));
    }
    trace_behind(num_at(input, 0), &input[2..], out)
}

// Room for 69,632 commands. It is a function of its own since the prover counts zeros that stand in a longer one each time it meets them.
fn command_buffer() -> [u8; 557056]
    ensures { result ≡ empty_room }
{
    [0; 557056]
}

// 1,741,000 zeros. The length is all that who lends them must know.
pub fn text_buffer() -> [u8; 1741000]
    ensures { 1741000 ≡ length result }
{
    [0; 1741000]
}

// 34 + 278,528 zeros, and one: an input that fills them all holds a capture of one byte more than 69,632 records, which is refused however it goes on.
pub fn input_buffer() -> [u8; 278563]
    ensures { 278563 ≡ length result }
{
    [0; 278563]
}
