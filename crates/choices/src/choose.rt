// What goes at a cycle. The tests take the two heads, their banks, their banks' groups and the stamps that the rules read, never the whole
// state. Of the groups they ask the head's own: the others are asked after it, where all else lets the command go.
ghost use Rattle.std.specs.Prelude.{◌≡◌, true, ◌&&◌, ◌<◌, ltb, leb};
ghost use Rattle.rules.specs.Square.{square};
ghost use Rattle.rules.specs.State.{past};
ghost use Rattle.timing.specs.Kept.{stamp_of, told_bank, told_group};
ghost use Rattle.choices.specs.Choose.{command_of, seen_at, data_free, act_free};

use distances::kinds::is_wr;
use heads::head::Head;
use records::command::Command;
use records::table::Table;
use timing::kept::{KeptBank, KeptGroup, kept_act_free, kept_data_free, since};

// The command of a head, at cycle c.
pub fn command_of(h: Head, c: u64) -> Command
    requires { c < 4294967296 }
    ensures { result ≡ command_of h c }
{
    Command {
        cycle: c as u32,
        kind: h.kind,
        bank: h.bank,
        number: h.number,
    }
}

// A head that stands there and arrived at cycle c or before: "Neither queue sees a transaction before its arrival" (document 02, request 9).
pub fn seen_at(there: bool, arrival: u32, c: u64) -> bool
    ensures { result ≡ (there && leb arrival c) }
{
    there && arrival as u64 <= c
}

// The data queue's head is seen, has had its ACT and breaks no rule at cycle c by its own group.
pub fn data_goes(
    t: Table,
    near: [[u32; 2]; 2],
    d: Head,
    k: KeptBank,
    own: KeptGroup,
    acts: u32,
    c: u64,
) -> bool
    requires { near ≡ square t true }
    ensures { result ≡ (seen_at c d && (ltb d.act acts && data_free t (told_bank k) (told_group own) (command_of d c))) }
{
    seen_at(d.there, d.arrival, c)
        && d.act < acts
        && kept_data_free(t, near, k, own.rd, own.wr, is_wr(d.kind), c)
}

// The ACT queue's head, an ACT, is seen and breaks no rule at cycle c by its own group.
pub fn act_goes(
    t: Table,
    a: Head,
    k: KeptBank,
    own: KeptGroup,
    a4: u64,
    refresh: u64,
    c: u64,
) -> bool
    ensures { result ≡ (seen_at c a && act_free t (told_bank k) (told_group own) (stamp_of a4) (stamp_of refresh) (command_of a c)) }
{
    seen_at(a.there, a.arrival, c) && kept_act_free(t, k, own.act, a4, refresh, c)
}

// The ACT queue's head, a REF, is seen and keeps rule 12 at cycle c. Rule 11 is asked of it after that alone, since it goes over all banks.
pub fn ref_waited(t: Table, a: Head, refresh: u64, c: u64) -> bool
    ensures { result ≡ (seen_at c a && past (stamp_of refresh) t.rfc c) }
{
    seen_at(a.there, a.arrival, c) && since(refresh, t.rfc as u32, c)
}
