// The host's running controller: plain unsigned numbers, so that any bit pattern is a state.
ghost use Rattle.std.specs.Prelude.{◌≡◌, map, min, ◌≤◌};
ghost use Rattle.rules.specs.Pieces.{lend};
ghost use Rattle.timing.specs.Kept.{stamp_of as kept_stamp, told_bank, told_group, told};
ghost use Rattle.controller.specs.Controller.{stamp_of, number_of, bank_tells, bank_kept, group_tells, group_kept, tells, kept, fresh_controller};

use records::table::Table;
use timing::kept::{Kept, KeptBank, KeptGroup, kept_fresh};

// The number that stands for "never".
pub const NEVER: u32 = 4294967295;

// A bank: open unless `opened` is 0; the cycles of its last ACT and of the last RD and WR since.
#[repr(C)]
#[derive(Clone, Copy)]
pub struct HostBank {
    pub opened: u32,
    pub act: u32,
    pub rd: u32,
    pub wr: u32,
}

// A group of banks: the cycles of its latest ACT, RD and WR.
#[repr(C)]
#[derive(Clone, Copy)]
pub struct HostGroup {
    pub act: u32,
    pub rd: u32,
    pub wr: u32,
}

// `cycle` is the next to be tried; `acts` and `datas` have left the two queues; `last` has the cycles of the last four ACTs, newest first;
// `refresh` is that of the last REF. `lent` is how many transactions of the list were lent before.
#[repr(C)]
#[derive(Clone, Copy)]
pub struct Controller {
    pub edition: u32,
    pub cycle: u32,
    pub acts: u32,
    pub datas: u32,
    pub banks: [HostBank; 16],
    pub last: [u32; 4],
    pub groups: [HostGroup; 8],
    pub refresh: u32,
    pub lent: u32,
}

// A number as a run keeps it.
pub fn number_in(x: u32) -> u64
    ensures { kept_stamp result ≡ stamp_of x }
{
    if x == NEVER { 0 } else { u64::from(x) + 1 }
}

// A cycle in 32 bits. None that a run reaches is cut.
pub fn cut(c: u64) -> u32
    ensures { result ≡ min c 4294967295 }
{
    c.min(u64::from(NEVER)) as u32
}

pub fn number_of(s: u64) -> u32
    ensures { result ≡ number_of (kept_stamp s) }
{
    if s == 0 { NEVER } else { cut(s - 1) }
}

impl From<HostBank> for KeptBank {
    ghost from_gives = { λ k r. told_bank r ≡ bank_tells k };

    fn from(k: HostBank) -> KeptBank {
        KeptBank {
            opened: k.opened,
            act: number_in(k.act),
            rd: number_in(k.rd),
            wr: number_in(k.wr),
        }
    }
}

impl From<KeptBank> for HostBank {
    ghost from_gives = { λ k r. r ≡ bank_kept (told_bank k) };

    fn from(k: KeptBank) -> HostBank {
        HostBank {
            opened: k.opened,
            act: number_of(k.act),
            rd: number_of(k.rd),
            wr: number_of(k.wr),
        }
    }
}

pub fn banks_in(ks: [HostBank; 16]) -> [KeptBank; 16]
    ensures { map told_bank result ≡ map bank_tells ks }
{
    let shut = KeptBank {
        opened: 0,
        act: 0,
        rd: 0,
        wr: 0,
    };
    let mut kept = [shut; 16];
    for i in 0..16 {
        kept[i] = KeptBank::from(ks[i]);
    }
    kept
}

pub fn banks_kept(ks: [KeptBank; 16]) -> [HostBank; 16]
    ensures { result ≡ map bank_kept (map told_bank ks) }
{
    let shut = HostBank {
        opened: 0,
        act: NEVER,
        rd: NEVER,
        wr: NEVER,
    };
    let mut held = [shut; 16];
    for k in 0..16 {
        held[k] = HostBank::from(ks[k]);
    }
    held
}

impl From<HostGroup> for KeptGroup {
    ghost from_gives = { λ g r. told_group r ≡ group_tells g };

    fn from(g: HostGroup) -> KeptGroup {
        KeptGroup {
            act: number_in(g.act),
            rd: number_in(g.rd),
            wr: number_in(g.wr),
        }
    }
}

impl From<KeptGroup> for HostGroup {
    ghost from_gives = { λ g r. r ≡ group_kept (told_group g) };

    fn from(g: KeptGroup) -> HostGroup {
        HostGroup {
            act: number_of(g.act),
            rd: number_of(g.rd),
            wr: number_of(g.wr),
        }
    }
}

pub fn groups_in(gs: [HostGroup; 8]) -> [KeptGroup; 8]
    ensures { map told_group result ≡ map group_tells gs }
{
    let quiet = KeptGroup {
        act: 0,
        rd: 0,
        wr: 0,
    };
    let mut kept = [quiet; 8];
    for i in 0..8 {
        kept[i] = KeptGroup::from(gs[i]);
    }
    kept
}

pub fn groups_kept(gs: [KeptGroup; 8]) -> [HostGroup; 8]
    ensures { result ≡ map group_kept (map told_group gs) }
{
    let quiet = HostGroup {
        act: NEVER,
        rd: NEVER,
        wr: NEVER,
    };
    let mut held = [quiet; 8];
    for k in 0..8 {
        held[k] = HostGroup::from(gs[k]);
    }
    held
}

// What the controller tells, as a run keeps it.
#[tactic(auto, unfolding(timing::specs::Kept::told, crate::specs::Controller::tells))]
pub fn kept_in(c: Controller) -> Kept
    ensures { told result ≡ tells c }
{
    let [a1, a2, a3, a4] = c.last;
    Kept {
        edition: c.edition,
        cycle: u64::from(c.cycle),
        acts: c.acts,
        datas: c.datas,
        banks: banks_in(c.banks),
        a1: number_in(a1),
        a2: number_in(a2),
        a3: number_in(a3),
        a4: number_in(a4),
        groups: groups_in(c.groups),
        refresh: number_in(c.refresh),
        lent: c.lent,
    }
}

// What a run keeps, once n transactions are lent to it.
#[tactic(auto, unfolding(timing::specs::Kept::told))]
pub fn lend_to(s: Kept, n: usize) -> Kept
    requires { n ≤ 256 }
    ensures { told result ≡ lend n (told s) }
{
    Kept {
        lent: n as u32,
        ..s
    }
}

// The controller that tells a state.
#[tactic(auto, unfolding(timing::specs::Kept::told, crate::specs::Controller::kept))]
pub fn controller_of(s: Kept) -> Controller
    ensures { result ≡ kept (told s) }
{
    Controller {
        edition: s.edition,
        cycle: cut(s.cycle),
        acts: s.acts,
        datas: s.datas,
        banks: banks_kept(s.banks),
        last: [
            number_of(s.a1),
            number_of(s.a2),
            number_of(s.a3),
            number_of(s.a4),
        ],
        groups: groups_kept(s.groups),
        refresh: number_of(s.refresh),
        lent: s.lent,
    }
}

// A fresh controller.
#[tactic(auto, using(timing::proofs::Telling::told_fresh))]
pub fn start_of(t: Table) -> Controller
    ensures { result ≡ fresh_controller t }
{
    controller_of(kept_fresh(t.edition))
}
