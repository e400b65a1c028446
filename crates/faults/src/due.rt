// What is due under a transaction, by the number of a kind and by the bank, and where the data queue places it.
ghost use Rattle.std.specs.Prelude.{◌≡◌, ◌+◌, ◌*◌};
ghost use Rattle.records.specs.Transaction.{transaction};
ghost use Rattle.serves.specs.Check.{index_of, per_bank, due_count, key_of};

// Which bank of a transaction, from 0, a bank is, going round past the last.
pub fn index_of(banks: u16, start: u8, b: u8) -> u32
    ensures { result ≡ index_of banks start b }
{
    let s = u32::from(start);
    let at = u32::from(b);
    if s <= at {
        at - s
    } else {
        (at + u32::from(banks)).saturating_sub(s)
    }
}

// How many commands of a kind are due to one bank of a read, or of a write.
pub fn per_bank(write: bool, bc: u8, c: u8) -> u32
    ensures { result ≡ per_bank write bc c }
{
    let plain = if write { 3 } else { 1 };
    let last = if write { 4 } else { 2 };
    if c == 0 {
        1
    } else if c == plain {
        u32::from(bc).saturating_sub(1)
    } else if c == last {
        1
    } else {
        0
    }
}

// How many are due to bank b under a transaction.
pub fn due_count(banks: u16, kind: u8, start: u8, bi: u8, bc: u8, c: u8, b: u8) -> u32
    ensures { result ≡ due_count banks (transaction kind start bi bc) c b }
{
    if kind == 2 {
        u32::from(c == 5 && b == 0)
    } else if index_of(banks, start, b) < u32::from(bi) {
        per_bank(kind == 1, bc, c)
    } else {
        0
    }
}

// Where the data queue places a command of transaction number y.
pub fn key_of(banks: u16, start: u8, y: u16, c: u8, b: u8) -> u64
    ensures { result ≡ key_of banks start y c b }
{
    let i = index_of(banks, start, b);
    u64::from(y) * 32 + u64::from(i) * 2 + u64::from(c == 2 || c == 4)
}
