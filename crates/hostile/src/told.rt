// What the calls answer, as numbers, and the buffers, as bytes.
use prints::InHex;
use records::table::Table;
use records::transaction::Transaction;
use std::fmt;

pub(crate) fn numbers_of(t: Table) -> [u16; 20] {
    [
        t.edition, t.banks, t.b, t.ccd, t.rcd, t.rp, t.ras, t.rc, t.rrd, t.faw, t.rl, t.wl, t.rtp,
        t.wr, t.wtr, t.rfc, t.groups, t.ccdl, t.rrdl, t.wtrl,
    ]
}

// The first four values of a transaction.
#[derive(Clone, Copy)]
pub(crate) struct Values(pub Transaction);

impl fmt::Display for Values {
    fn fmt<W: fmt::Write>(&self, f: &mut fmt::Formatter<W>) -> fmt::Result {
        let x = self.0;
        write!(f, "{} {} {} {}", x.kind, x.start, x.bi, x.bc)
    }
}

// All of the buffer that a writer was lent; of no bytes, a dash.
#[derive(Clone, Copy)]
pub(crate) struct Kept<'a>(pub &'a [u8]);

impl fmt::Display for Kept<'_> {
    fn fmt<W: fmt::Write>(&self, f: &mut fmt::Formatter<W>) -> fmt::Result {
        if self.0.is_empty() {
            write!(f, "-")
        } else {
            write!(f, "{}", InHex(self.0))
        }
    }
}
