// The cases of the input.
ghost use Rattle.std.specs.Prelude.{length};
ghost use Rattle.std.specs.Iterator.{at_most};

use reads::bytes::Bytes;

#[derive(Clone, Copy)]
pub(crate) struct Case<'a> {
    pub call: u8,
    pub expected: u16,
    pub table: &'a [u8],
    pub list: &'a [u8],
    pub schedule: &'a [u8],
}

// A case that is cut short is none, and is left.
#[derive(Clone, Copy)]
pub(crate) struct Cases<'a> {
    pub bytes: Bytes<'a>,
}

impl<'a> Iterator for Cases<'a> {
    type Item = Case<'a>;

    ghost remaining = { λ s. at_most (length s.bytes.left.now) };

    fn next(&mut self) -> Option<Case<'a>> {
        let mut rest = self.bytes;
        let call = rest.byte()?;
        let expected = rest.short()?;
        let t = rest.byte()?;
        let l = rest.short()?;
        let n = rest.short()?;
        let table = rest.take(usize::from(t))?;
        let list = rest.take(usize::from(l))?;
        let schedule = rest.take(usize::from(n))?;
        self.bytes = rest;
        Some(Case {
            call,
            expected,
            table,
            list,
            schedule,
        })
    }
}
