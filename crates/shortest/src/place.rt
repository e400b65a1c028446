// The records that are placed so far, and what comes next to a bank.
ghost use Rattle.std.specs.Prelude.{◌≡◌, suc, ◌*◌, ◌≤◌, ◌<◌, set};
ghost use Rattle.records.specs.Command.{command};
ghost use Rattle.rules.specs.State.{add_if};
ghost use Rattle.shortest.specs.Shortest.{kind_at};
ghost use Rattle.shortest.specs.Search.{tally, class};

use distances::kinds::data_kind;
use records::command::{Command, Kind};

// BI × (1 + BC).
#[tactic(auto, using(crate::proofs::Turns::few_records))]
pub fn records_of(bi: u8, bc: u8) -> usize
    ensures { (result ≡ bi * suc bc) × (result ≤ 65280) }
{
    usize::from(bi) * (usize::from(bc) + 1)
}

// What a bank gets after `step` commands: its ACT, then data commands, the BC-th of which closes it.
#[tactic(auto, using(crate::proofs::Turns::kind_later))]
pub fn kind_at(write: bool, bc: u8, step: u8) -> Kind
    ensures { result ≡ kind_at write bc step }
{
    if step == 0 {
        Kind::Act
    } else {
        data_kind(write, step == bc)
    }
}

// A pattern's kinds in the order of their numbers.
pub fn class_of(k: Kind) -> u8
    ensures { result ≡ class k }
{
    match k {
        Kind::Act => 0,
        Kind::Rd | Kind::Wr => 1,
        Kind::Rda | Kind::Wra => 2,
        _ => 3,
    }
}

pub fn add_if(one: bool, n: u8) -> u8
    requires { n < 255 }
    ensures { result ≡ add_if one n }
{
    if one { n + 1 } else { n }
}

// How many of the first k records are to bank b.
#[tactic(auto, using(crate::proofs::Turns::tally_few))]
pub fn count(items: [Command; 6], k: usize, b: u8) -> u8
    requires { k ≤ 6 }
    ensures { result ≡ tally b items k }
{
    let mut n = 0;
    for i in 0..k {
        n = add_if(items[i].bank == b, n);
    }
    n
}

// The records with one more, number k.
pub fn put(items: [Command; 6], k: usize, cycle: u32, kind: Kind, bank: u8) -> [Command; 6]
    requires { k < 6 }
    ensures { result ≡ set items k (command cycle kind bank 0) }
{
    let mut now = items;
    now[k] = Command {
        cycle,
        kind,
        bank,
        number: 0,
    };
    now
}
