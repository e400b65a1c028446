// Puts stored inputs through the trace, and writes each text behind a line `case`.
//
// Standard input, of which 65,536 bytes are read at most, is a sequence of inputs, each behind its length in two bytes. One that is cut short
// is left out. The first is the head, an expected edition and a table, of three captures that reach the last cycle and are too long to be stored.
#![tactic(auto)]

ghost use Rattle.std.specs.Prelude.{◌≡◌, ◌+◌, ◌≤◌, length};

use reads::bytes::{Bytes, Inputs};
use reads::read_full;
use records::little::put_16;
use std::io;
use std::io::Write;
use traced::{input_buffer, text_buffer, trace_of};

fn main(rt: HostRuntime) -> io::Result<()> {
    let mut input = [0u8; 65536];
    let read = read_full(&mut rt.stdin(), &mut input)?;
    let bytes = Bytes {
        left: &input[..read],
    };
    let mut out = rt.stdout();
    for case in (Inputs { bytes }) {
        trace(&mut out, case)?;
    }
    if 36 <= read {
        let head = &input[2..36];
        at_the_last_cycle(&mut out, head, 65535, 255, 0)?;
        at_the_last_cycle(&mut out, head, 65535, 0, 3)?;
        at_the_last_cycle(&mut out, head, 0, 255, 0)?;
    }
    Ok(())
}

fn trace<W: Write>(out: &mut W, input: &[u8]) -> io::Result<()> {
    let mut text = text_buffer();
    let written = trace_of(input, &mut text);
    out.write_all(b"case\n")?;
    out.write_all(&text[..written])
}

// 65,536 ticks, each 65,535 cycles after the one before it, and one record more: at cycle 4,294,967,295 if its stamp is 65,535, at the next if
// it is 0.
fn at_the_last_cycle<W: Write>(
    out: &mut W,
    head: &[u8],
    stamp: u16,
    kind: u8,
    bank: u8,
) -> io::Result<()>
    requires { length head.now ≡ 34 }
{
    let mut long = input_buffer();
    put_long(head, stamp, kind, bank, &mut long);
    trace(out, &long[..262182])
}

fn put_long(head: &[u8], stamp: u16, kind: u8, bank: u8, long: &mut [u8])
    requires { (length head.now ≡ 34) × (length long.old ≡ 278563) }
    ensures { length long.new ≡ 278563 }
{
    long[..34].copy_from_slice(head);
    for k in 0..65536 {
        put_record(long, 34 + 4 * k, 65535 - k as u16, 255, 0);
    }
    put_record(long, 262178, stamp, kind, bank);
}

fn put_record(s: &mut [u8], at: usize, stamp: u16, kind: u8, bank: u8)
    requires { at + 4 ≤ length s.old }
{
    put_16(s, at, stamp);
    s[at + 2] = kind;
    s[at + 3] = bank;
}
