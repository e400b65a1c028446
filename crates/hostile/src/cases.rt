// The cases of the input.
ghost use Rattle.std.specs.Prelude.{length};
ghost use Rattle.std.specs.Iterator.{at_most};

use reads::bytes::Bytes;

#[derive(Clone, Copy)]
pub(crate) struct Case<'a> {
    pub call: u8,
    pub bytes: &'a [u8],
}

// A case that is cut short is none, and is left.
#[derive(Clone, Copy)]
pub(crate) struct Cases<'a> {
    pub bytes: Bytes<'a>,
}

impl<'a> Iterator for Cases<'a> {
    type Item = Case<'a>;

    ghost remaining = { λ s. at_most (length s.bytes.left.now) };

    fn next(&mut self) -> Option<Case<'a>> {
        let mut rest = self.bytes;
        let call = rest.byte()?;
        let n = rest.byte()?;
        let bytes = rest.take(usize::from(n))?;
        self.bytes = rest;
        Some(Case { call, bytes })
    }
}
