// Judges a capture, read from standard input behind the expected edition and the table: writes what `traced` says of the bytes that were read. More
// input than 278,563 bytes is not read: it is over 69,632 records, however it goes on.
#![tactic(auto)]

use reads::read_full;
use std::io;
use std::io::Write;
use traced::{input_buffer, text_buffer, trace_of};

fn main(rt: HostRuntime) -> io::Result<()> {
    let mut input = input_buffer();
    let read = read_full(&mut rt.stdin(), &mut input)?;
    let mut text = text_buffer();
    let written = trace_of(&input[..read], &mut text);
    rt.stdout().write_all(&text[..written])
}
