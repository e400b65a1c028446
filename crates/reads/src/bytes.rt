// Bytes that are taken from their start on. Where too few are left, none is taken.
ghost use Rattle.std.specs.Prelude.{◌≡◌, ◌+◌, ◌<◌, ◌≤◌, ◌∷◌, length, take, drop, MatchOption};
ghost use Rattle.std.specs.Iterator.{at_most};
ghost use Rattle.records.specs.Little.{num, num32};

use records::little::{num_32_at, num_at};

#[derive(Clone, Copy)]
pub struct Bytes<'a> {
    pub left: &'a [u8],
}

impl<'a> Bytes<'a> {
    pub fn take(&mut self, n: usize) -> Option<&'a [u8]>
        ensures cases { MatchOption result (length self.old.left.now < n) (λ s. (s.now ≡ take n self.old.left.now) × (self.new.left.now ≡ drop n self.old.left.now) × (length s.now ≡ n) × (length self.new.left.now + n ≡ length self.old.left.now)) }
        ensures left { length self.new.left.now ≤ length self.old.left.now }
    {
        let (front, back) = self.left.split_at_checked(n)?;
        self.left = back;
        Some(front)
    }

    pub fn byte(&mut self) -> Option<u8>
        ensures cases { MatchOption result (length self.old.left.now ≡ 0) (λ x. self.old.left.now ≡ x ∷ self.new.left.now) }
        ensures left { length self.new.left.now ≤ length self.old.left.now }
    {
        let (first, rest) = self.left.split_first()?;
        self.left = rest;
        Some(*first)
    }

    // A number of 16 bits.
    pub fn short(&mut self) -> Option<u16>
        ensures cases { MatchOption result (length self.old.left.now < 2) (λ x. (x ≡ num self.old.left.now 0) × (self.new.left.now ≡ drop 2 self.old.left.now) × (length self.new.left.now + 2 ≡ length self.old.left.now)) }
        ensures left { length self.new.left.now ≤ length self.old.left.now }
    {
        let s = self.take(2)?;
        Some(num_at(s, 0))
    }

    // A number of 32 bits.
    pub fn long(&mut self) -> Option<u32>
        ensures cases { MatchOption result (length self.old.left.now < 4) (λ x. (x ≡ num32 self.old.left.now 0) × (self.new.left.now ≡ drop 4 self.old.left.now) × (length self.new.left.now + 4 ≡ length self.old.left.now)) }
        ensures left { length self.new.left.now ≤ length self.old.left.now }
    {
        let s = self.take(4)?;
        Some(num_32_at(s, 0))
    }
}

// A sequence of inputs, each behind its length in two bytes. One that is cut short is left out.
#[derive(Clone, Copy)]
pub struct Inputs<'a> {
    pub bytes: Bytes<'a>,
}

impl<'a> Iterator for Inputs<'a> {
    type Item = &'a [u8];

    ghost remaining = { λ s. at_most (length s.bytes.left.now) };

    fn next(&mut self) -> Option<&'a [u8]> {
        let n = self.bytes.short()?;
        self.bytes.take(usize::from(n))
    }
}
