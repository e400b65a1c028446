// Puts stored inputs through the listing, and writes each text behind a line `case`.
//
// Standard input, of which 65,536 bytes are read at most, is a sequence of inputs, each behind its length in two bytes. One that is cut short
// is left out.
#![tactic(auto)]

use listed::listing_of;
use reads::bytes::{Bytes, Inputs};
use reads::read_full;
use std::io;
use std::io::Write;

fn main(rt: HostRuntime) -> io::Result<()> {
    let mut input = [0u8; 65536];
    let read = read_full(&mut rt.stdin(), &mut input)?;
    let bytes = Bytes {
        left: &input[..read],
    };
    let mut out = rt.stdout();
    for case in (Inputs { bytes }) {
        let mut text = [0u8; 262144];
        let written = listing_of(case, &mut text);
        out.write_all(b"case\n")?;
        out.write_all(&text[..written])?;
    }
    Ok(())
}
