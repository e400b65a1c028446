// The 342 bytes of a state, and its line.
ghost use Rattle.std.specs.Prelude.{◌+◌, ◌≤◌, length};

use controller::controller::{Controller, HostBank, HostGroup};
use prints::Row;
use records::little::{num_32_at, num_at};
use std::fmt;

pub(crate) fn controller_at(s: &[u8]) -> Controller
    requires { 342 ≤ length s.now }
{
    let mut banks = [HostBank {
        opened: 0,
        act: 0,
        rd: 0,
        wr: 0,
    }; 16];
    for k in 0..16 {
        banks[k] = bank_at(s, 14 + 13 * k);
    }
    let mut groups = [HostGroup {
        act: 0,
        rd: 0,
        wr: 0,
    }; 8];
    for k in 0..8 {
        groups[k] = group_at(s, 238 + 12 * k);
    }
    Controller {
        edition: u32::from(num_at(s, 0)),
        cycle: num_32_at(s, 2),
        acts: num_32_at(s, 6),
        datas: num_32_at(s, 10),
        banks,
        last: [
            num_32_at(s, 222),
            num_32_at(s, 226),
            num_32_at(s, 230),
            num_32_at(s, 234),
        ],
        groups,
        refresh: num_32_at(s, 334),
        lent: num_32_at(s, 338),
    }
}

fn bank_at(s: &[u8], at: usize) -> HostBank
    requires { at + 13 ≤ length s.now }
{
    HostBank {
        opened: u32::from(s[at]),
        act: num_32_at(s, at + 1),
        rd: num_32_at(s, at + 5),
        wr: num_32_at(s, at + 9),
    }
}

fn group_at(s: &[u8], at: usize) -> HostGroup
    requires { at + 12 ≤ length s.now }
{
    HostGroup {
        act: num_32_at(s, at),
        rd: num_32_at(s, at + 4),
        wr: num_32_at(s, at + 8),
    }
}

#[derive(Clone, Copy)]
pub(crate) struct State(pub Controller);

impl fmt::Display for State {
    fn fmt<W: fmt::Write>(&self, f: &mut fmt::Formatter<W>) -> fmt::Result {
        let c = self.0;
        write!(f, "{} {} {} {}", c.edition, c.cycle, c.acts, c.datas)?;
        for bank in &c.banks {
            write!(f, " {} {} {} {}", bank.opened, bank.act, bank.rd, bank.wr)?;
        }
        write!(f, "{}", Row(&c.last))?;
        for group in &c.groups {
            write!(f, " {} {} {}", group.act, group.rd, group.wr)?;
        }
        write!(f, " {} {}", c.refresh, c.lent)
    }
}
