// The capture record, 4 bytes: a 16-bit stamp, kind, bank.
ghost use Rattle.std.specs.Prelude.{◌≡◌, ◌+◌, ◌≤◌, length};
ghost use Rattle.records.specs.Told.{over, Leaves};
ghost use Rattle.stamps.specs.Record.{capture_record, record_at, bytes_of_record, read_capture_record, write_capture_record};
ghost use Rattle.stamps.specs.Capture.{gap, is_tick};

use records::little::{num_at, put_16};
use records::refusal::{Refusal, refuse};

#[derive(Clone, Copy)]
pub struct CaptureRecord {
    pub stamp: u16,
    pub kind: u8,
    pub bank: u8,
}

// The record of the four bytes from a place on.
pub fn record_at(s: &[u8], at: usize) -> CaptureRecord
    requires { at + 4 ≤ length s.now }
    ensures { result ≡ record_at s.now at }
{
    CaptureRecord {
        stamp: num_at(s, at),
        kind: s[at + 2],
        bank: s[at + 3],
    }
}

#[tactic(auto, unfolding(crate::specs::Record::read_capture_record))]
pub fn read_capture_record(s: &[u8]) -> Result<CaptureRecord, Refusal>
    ensures { result ≡ read_capture_record s.now }
{
    if s.len() != 4 {
        return Err(refuse(7, 0, 0));
    }
    Ok(record_at(s, 0))
}

// Writes the four bytes from the buffer's start.
#[tactic(auto, using(records::proofs::Bytes::put_sets))]
fn put_record(x: CaptureRecord, s: &mut [u8])
    requires { 4 ≤ length s.old }
    ensures { s.new ≡ over (bytes_of_record x) s.old }
{
    put_16(s, 0, x.stamp);
    s[2] = x.kind;
    s[3] = x.bank;
}

#[tactic(auto, unfolding(crate::specs::Record::write_capture_record))]
pub fn write_capture_record(x: CaptureRecord, s: &mut [u8]) -> Result<u16, Refusal>
    ensures { Leaves (write_capture_record x s.old) result s.new }
{
    if s.len() < 4 {
        return Err(refuse(5, 0, 0));
    }
    put_record(x, s);
    Ok(0)
}

// The stamp's difference taken round the wrap: the true gap between neighbouring stamps.
#[tactic(auto, unfolding(crate::specs::Capture::gap))]
pub fn true_gap(before: u16, stamp: u16) -> u16
    ensures { result ≡ gap before stamp }
{
    stamp.wrapping_sub(before)
}

// The true cycle goes on by it. The sum has more than 32 bits.
pub fn cycle_after(before: u16, cycle: u64, stamp: u16) -> u64
    requires { cycle ≤ 4294967295 }
    ensures { result ≡ cycle + gap before stamp }
{
    cycle + u64::from(true_gap(before, stamp))
}

// Kind 255 with bank 0.
pub fn is_tick(kind: u8, bank: u8) -> bool
    ensures { result ≡ is_tick (capture_record 0 kind bank) }
{
    kind == 255 && bank == 0
}
