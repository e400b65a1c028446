// Little-endian numbers.
ghost use Rattle.std.specs.Prelude.{◌≡◌, ◌+◌, ◌≤◌, length};
ghost use Rattle.records.specs.Little.{le16, le32, num, num32, put16, put32};

pub fn from_le16(a: u8, b: u8) -> u16
    ensures { result ≡ le16 a b }
{
    u16::from_le_bytes([a, b])
}

pub fn from_le32(a: u8, b: u8, c: u8, d: u8) -> u32
    ensures { result ≡ le32 a b c d }
{
    u32::from_le_bytes([a, b, c, d])
}

// The 16-bit number at a place.
pub fn num_at(s: &[u8], at: usize) -> u16
    requires { at + 2 ≤ length s.now }
    ensures { result ≡ num s.now at }
{
    from_le16(s[at], s[at + 1])
}

// Writes a 16-bit number at a place.
pub fn put_16(s: &mut [u8], at: usize, x: u16)
    requires { at + 2 ≤ length s.old }
    ensures { s.new ≡ put16 s.old at x }
{
    let [low, high] = x.to_le_bytes();
    s[at] = low;
    s[at + 1] = high;
}

// The 32-bit number at a place.
pub fn num_32_at(s: &[u8], at: usize) -> u32
    requires { at + 4 ≤ length s.now }
    ensures { result ≡ num32 s.now at }
{
    from_le32(s[at], s[at + 1], s[at + 2], s[at + 3])
}

// Writes a 32-bit number at a place.
pub fn put_32(s: &mut [u8], at: usize, x: u32)
    requires { at + 4 ≤ length s.old }
    ensures { s.new ≡ put32 s.old at x }
{
    let [a, b, c, d] = x.to_le_bytes();
    s[at] = a;
    s[at + 1] = b;
    s[at + 2] = c;
    s[at + 3] = d;
}
