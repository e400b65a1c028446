// What the listing program of document 01 prints for any bytes that it reads. The text always fits into 262,144 bytes: 8,192 commands of at
// most 25, 256 finishes of at most 39, and a first line.
#![tactic(auto)]

ghost use Rattle.std.specs.Prelude.{◌≤◌, length};
ghost use Rattle.text.specs.Puts.{Writes};
ghost use Rattle.listed.specs.Listing.{ListsCall, ListsBehind, Lists};

use desk::schedule_straight_bytes;
use printed::answer::{put_refusal, put_schedule};
use records::little::num_at;
use records::refusal::refuse;

// The desk's call, by the second engine, in 64 KiB of command room.
fn list_call(expected: u16, table: &[u8], list: &[u8], out: &mut [u8]) -> usize
    requires { 262144 ≤ length out.old }
    ensures { Writes (ListsCall expected table.now list.now) result out.old out.new }
{
    let mut room = [0u8; 65536];
    let mut places = [0u32; 256];
    let commands = &mut room[..];
    let finishes = &mut places[..];
    let n = list.len() / 4;
    let answer = schedule_straight_bytes(expected, table, list, commands, finishes);
    match answer {
        Ok((edition, written)) => { put_schedule(out, edition, commands, written, finishes, n) }
        Err(x) => put_refusal(out, x),
    }
}

// The table is the next 32 bytes, or all where there are fewer.
fn list_behind(expected: u16, s: &[u8], out: &mut [u8]) -> usize
    requires { 262144 ≤ length out.old }
    ensures { Writes (ListsBehind expected s.now) result out.old out.new }
{
    if s.len() < 32 {
        let n = s.len();
        return list_call(expected, s, &s[n..], out);
    }
    list_call(expected, &s[..32], &s[32..], out)
}

// What the listing program prints for these bytes, from the buffer's start, and its length.
pub fn listing_of(input: &[u8], out: &mut [u8]) -> usize
    requires { 262144 ≤ length out.old }
    ensures { Writes (Lists input.now) result out.old out.new }
{
    if input.len() < 2 {
        return put_refusal(out, refuse(1, 0, 0));
    }
    list_behind(num_at(input, 0), &input[2..], out)
}
