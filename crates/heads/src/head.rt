// The command at the head of a queue.
ghost use Rattle.std.specs.Prelude.{◌≡◌, true, ◌+◌, ◌*◌, ◌<◌, ◌≤◌};
ghost use Rattle.records.specs.Table.{Accepted};
ghost use Rattle.records.specs.Transaction.{fits};
ghost use Rattle.rules.specs.Queues.{bank_at, act_count};
ghost use Rattle.rules.proofs.queues.Queue.{place_of, act_due, data_due};
ghost use Rattle.heads.specs.Head.{head_of, no_head};

use distances::kinds::data_kind;
use records::command::Kind;
use records::table::Table;
use records::transaction::Transaction;

// The command that stands there, if any does; `act` is the place in the ACT queue of the ACT of its bank, `arrival` its transaction's.
// `there` stands beside the values, with no Option: the engines read the bank of a head and its group whether it stands there or not, with no branch.
#[derive(Clone, Copy)]
pub struct Head {
    pub there: bool,
    pub kind: Kind,
    pub bank: u8,
    pub number: u16,
    pub act: u32,
    pub arrival: u32,
}

pub fn no_head() -> Head
    ensures { result ≡ no_head }
{
    Head {
        there: false,
        kind: Kind::Act,
        bank: 0,
        number: 0,
        act: 0,
        arrival: 0,
    }
}

// The bank that comes k-th, from 0, with bank 0 after the last. Nothing else computes a bank. The sum is below twice the banks, so that the
// remainder is one subtraction at most.
pub fn bank_at(t: Table, x: Transaction, k: u32) -> u8
    requires { Accepted t × (fits t x ≡ true) × (k < x.bi) }
    ensures { result ≡ bank_at t x k }
{
    let banks = t.banks as u32;
    let past = x.start as u32 + k;
    if past < banks {
        past as u8
    } else {
        (past - banks) as u8
    }
}

// The ACT of transaction x, number i, that `offset` of its ACTs come before, or its REF; `before` stand before the transaction.
pub fn act_head(t: Table, x: Transaction, i: usize, before: u32, offset: u32) -> Head
    requires { Accepted t × (fits t x ≡ true) × (offset < act_count x) × (i < 256) × (before ≤ 16 * i) }
    ensures { result ≡ head_of (act_due t (place_of x i before offset)) }
{
    if x.kind == 2 {
        return Head {
            there: true,
            kind: Kind::Ref,
            bank: 0,
            number: i as u16,
            act: before + offset,
            arrival: x.arrival,
        };
    }
    Head {
        there: true,
        kind: Kind::Act,
        bank: bank_at(t, x, offset),
        number: i as u16,
        act: before + offset,
        arrival: x.arrival,
    }
}

// The data command that `offset` of the transaction's data commands come before.
pub fn data_head(t: Table, x: Transaction, i: usize, before: u32, offset: u32) -> Head
    requires { Accepted t × (fits t x ≡ true) × (offset < x.bi * x.bc) × (i < 256) × (before ≤ 16 * i) }
    ensures { result ≡ head_of (data_due t (place_of x i before offset)) }
{
    let bc = x.bc as u32;
    let k = offset / bc;
    let last = offset % bc + 1 == bc;
    Head {
        there: true,
        kind: data_kind(x.kind == 1, last),
        bank: bank_at(t, x, k),
        number: i as u16,
        act: before + k,
        arrival: x.arrival,
    }
}
