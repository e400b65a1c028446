// Lists the schedule of a table and its transactions, read from standard input: writes what `listed` says of the bytes that were read. More
// input than 65,536 bytes is not read: it is over 256 transactions, however it goes on.
#![tactic(auto)]

use listed::listing_of;
use reads::read_full;
use std::io;
use std::io::Write;

fn main(rt: HostRuntime) -> io::Result<()> {
    let mut input = [0u8; 65536];
    let read = read_full(&mut rt.stdin(), &mut input)?;
    let mut text = [0u8; 262144];
    let written = listing_of(&input[..read], &mut text);
    rt.stdout().write_all(&text[..written])
}
