// What the calls answer, as numbers.
use answers::answer::Answer;
use controller::controller::Controller;
use prints::Row;
use records::refusal::Refusal;
use records::transaction::Transaction;
use std::fmt;

#[derive(Clone, Copy)]
pub(crate) struct Refused(pub Refusal);

impl fmt::Display for Refused {
    fn fmt<W: fmt::Write>(&self, f: &mut fmt::Formatter<W>) -> fmt::Result {
        let r = self.0;
        write!(f, "refused {} {} {}", r.number, r.position, r.edition)
    }
}

#[derive(Clone, Copy)]
pub(crate) struct Numbers(pub Answer);

impl fmt::Display for Numbers {
    fn fmt<W: fmt::Write>(&self, f: &mut fmt::Formatter<W>) -> fmt::Result {
        let a = self.0;
        write!(
            f,
            "{} {} {} {} {}",
            a.refused, a.position, a.edition, a.count, a.cycles
        )
    }
}

#[derive(Clone, Copy)]
pub(crate) struct Transactions<'a>(pub &'a [Transaction]);

impl fmt::Display for Transactions<'_> {
    fn fmt<W: fmt::Write>(&self, f: &mut fmt::Formatter<W>) -> fmt::Result {
        for x in self.0 {
            write!(
                f,
                " , {} {} {} {} {}",
                x.kind, x.start, x.bi, x.bc, x.arrival
            )?;
        }
        Ok(())
    }
}

#[derive(Clone, Copy)]
pub(crate) struct State(pub Controller);

impl fmt::Display for State {
    fn fmt<W: fmt::Write>(&self, f: &mut fmt::Formatter<W>) -> fmt::Result {
        let c = self.0;
        write!(f, " , {} {} {} {}", c.edition, c.cycle, c.acts, c.datas)?;
        for bank in &c.banks {
            write!(f, " , {} {} {} {}", bank.opened, bank.act, bank.rd, bank.wr)?;
        }
        write!(f, " ,{}", Row(&c.last))?;
        for group in &c.groups {
            write!(f, " , {} {} {}", group.act, group.rd, group.wr)?;
        }
        write!(f, " , {} {}", c.refresh, c.lent)
    }
}
