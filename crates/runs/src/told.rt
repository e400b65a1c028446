// What more than one call's lines have.
use commands::command::command_at;
use records::command::{Command, Kind};
use std::io::Write;
use std::{fmt, io};

// A line for each command of the bytes.
pub(crate) fn command_lines<W: Write>(out: &mut W, s: &[u8]) -> io::Result<()> {
    for bytes in s.as_chunks::<8>().0 {
        writeln!(out, "{}", Line(command_at(bytes, 0)))?;
    }
    Ok(())
}

#[derive(Clone, Copy)]
struct Line(Command);

impl fmt::Display for Line {
    fn fmt<W: fmt::Write>(&self, f: &mut fmt::Formatter<W>) -> fmt::Result {
        let c = self.0;
        write!(f, "{} {} {} {}", c.cycle, Name(c.kind), c.bank, c.number)
    }
}

#[derive(Clone, Copy)]
struct Name(Kind);

impl fmt::Display for Name {
    fn fmt<W: fmt::Write>(&self, f: &mut fmt::Formatter<W>) -> fmt::Result {
        match self.0 {
            Kind::Act => write!(f, "ACT"),
            Kind::Rd => write!(f, "RD"),
            Kind::Rda => write!(f, "RDA"),
            Kind::Wr => write!(f, "WR"),
            Kind::Wra => write!(f, "WRA"),
            Kind::Ref => write!(f, "REF"),
            Kind::Other(n) => write!(f, " {n}"),
        }
    }
}
