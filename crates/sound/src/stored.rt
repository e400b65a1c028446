// The stored command cycles of a state, each of which is before the state's own cycle unless number 9 refuses it.
ghost use Rattle.std.specs.Prelude.{◌≡◌, [], ◌∷◌, map, ◌≤◌};
ghost use Rattle.records.specs.Tests.{every};
ghost use Rattle.timing.specs.Kept.{stamp_of, told_bank, told_group};
ghost use Rattle.sound.specs.Refused.{before, bank_before, banks_before, group_before, groups_before};

use timing::kept::{KeptBank, KeptGroup, since};

pub fn bank_before(k: KeptBank, t: u64) -> bool
    ensures { result ≡ bank_before t (told_bank k) }
{
    since(k.act, 1, t) && since(k.rd, 1, t) && since(k.wr, 1, t)
}

// Of the first n banks.
pub fn banks_before(ks: [KeptBank; 16], n: u16, t: u64) -> bool
    requires { n ≤ 16 }
    ensures { result ≡ banks_before t n (map told_bank ks) }
{
    ks[..n as usize].iter().all(|k| bank_before(*k, t))
}

pub fn group_before(g: KeptGroup, t: u64) -> bool
    ensures { result ≡ group_before t (told_group g) }
{
    since(g.act, 1, t) && since(g.rd, 1, t) && since(g.wr, 1, t)
}

// Of the first n groups.
pub fn groups_before(ks: [KeptGroup; 8], n: u16, t: u64) -> bool
    requires { n ≤ 8 }
    ensures { result ≡ groups_before t n (map told_group ks) }
{
    ks[..n as usize].iter().all(|g| group_before(*g, t))
}

// Of the four ACTs and the last REF.
pub fn last_before(a1: u64, a2: u64, a3: u64, a4: u64, refresh: u64, t: u64) -> bool
    ensures { result ≡ every (before t) (stamp_of a1 ∷ stamp_of a2 ∷ stamp_of a3 ∷ stamp_of a4 ∷ stamp_of refresh ∷ []) }
{
    since(a1, 1, t) && since(a2, 1, t) && since(a3, 1, t) && since(a4, 1, t) && since(refresh, 1, t)
}
