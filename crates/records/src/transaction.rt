// The transaction, 4 bytes, which arrives at cycle 0, or 8, which add its arrival. Both are read and written in `transactions`.

// `kind` is the paper's type: 0 read, 1 write, 2 refresh. (`type` is a word of the language.) It is a byte, since C lends runs of
// this record.
#[repr(C)]
#[derive(Clone, Copy, Debug, PartialEq, Eq)]
pub struct Transaction {
    pub kind: u8,
    pub start: u8,
    pub bi: u8,
    pub bc: u8,
    // The cycle from which the queues see it.
    pub arrival: u32,
}
