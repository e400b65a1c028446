// Tells the shortest pattern for what is asked on standard input, behind the expected edition and the table: writes what `patterned` says of the bytes
// that were read. More input than 64 bytes is not read: its table is too long, however it goes on.
#![tactic(auto)]

use patterned::pattern_of;
use reads::read_full;
use std::io;
use std::io::Write;

fn main(rt: HostRuntime) -> io::Result<()> {
    let mut input = [0u8; 64];
    let read = read_full(&mut rt.stdin(), &mut input)?;
    let mut text = [0u8; 256];
    let written = pattern_of(&input[..read], &mut text);
    rt.stdout().write_all(&text[..written])
}
