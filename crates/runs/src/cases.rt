// The cases of the input.
ghost use Rattle.std.specs.Prelude.{◌≤◌, length};
ghost use Rattle.std.specs.Iterator.{at_most};

use crate::state::controller_at;
use controller::controller::Controller;
use reads::bytes::Bytes;

// The transactions of a build and of a run have 8 bytes where the flag beside it is true, else 4.
#[derive(Clone, Copy)]
pub(crate) enum Case<'a> {
    Build(bool, Build<'a>),
    Run(bool, Run<'a>),
    Bound(Bound<'a>),
}

#[derive(Clone, Copy)]
pub(crate) struct Build<'a> {
    pub expected: u16,
    pub room: u16,
    pub slots: u16,
    pub table: &'a [u8],
    pub list: &'a [u8],
}

#[derive(Clone, Copy)]
pub(crate) struct Run<'a> {
    pub expected: u16,
    pub count: u32,
    pub room: u16,
    pub controller: Controller,
    pub table: &'a [u8],
    pub list: &'a [u8],
}

#[derive(Clone, Copy)]
pub(crate) struct Bound<'a> {
    pub expected: u16,
    pub bi: u8,
    pub bc: u8,
    pub table: &'a [u8],
}

// A case that is cut short, or of another call, is none, and is left.
#[derive(Clone, Copy)]
pub(crate) struct Cases<'a> {
    pub bytes: Bytes<'a>,
}

impl<'a> Iterator for Cases<'a> {
    type Item = Case<'a>;

    ghost remaining = { λ s. at_most (length s.bytes.left.now) };

    fn next(&mut self) -> Option<Case<'a>> {
        let mut rest = self.bytes;
        let call = rest.byte()?;
        let expected = rest.short()?;
        let t = usize::from(rest.byte()?);
        let case = match call {
            1 => Case::Build(false, build_of(expected, t, &mut rest)?),
            2 => Case::Run(false, run_of(expected, t, &mut rest)?),
            3 => Case::Bound(bound_of(expected, t, &mut rest)?),
            4 => Case::Build(true, build_of(expected, t, &mut rest)?),
            5 => Case::Run(true, run_of(expected, t, &mut rest)?),
            _ => return None,
        };
        self.bytes = rest;
        Some(case)
    }
}

fn build_of<'a>(expected: u16, t: usize, rest: &mut Bytes<'a>) -> Option<Build<'a>>
    ensures { length rest.new.left.now ≤ length rest.old.left.now }
{
    let room = rest.short()?;
    let slots = rest.short()?;
    let n = rest.short()?;
    Some(Build {
        expected,
        room,
        slots,
        table: rest.take(t)?,
        list: rest.take(usize::from(n))?,
    })
}

fn run_of<'a>(expected: u16, t: usize, rest: &mut Bytes<'a>) -> Option<Run<'a>>
    ensures { length rest.new.left.now ≤ length rest.old.left.now }
{
    let count = rest.long()?;
    let room = rest.short()?;
    let n = rest.short()?;
    Some(Run {
        expected,
        count,
        room,
        controller: controller_at(rest.take(342)?),
        table: rest.take(t)?,
        list: rest.take(usize::from(n))?,
    })
}

fn bound_of<'a>(expected: u16, t: usize, rest: &mut Bytes<'a>) -> Option<Bound<'a>>
    ensures { length rest.new.left.now ≤ length rest.old.left.now }
{
    let bi = rest.byte()?;
    let bc = rest.byte()?;
    Some(Bound {
        expected,
        bi,
        bc,
        table: rest.take(t)?,
    })
}
