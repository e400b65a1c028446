// How a table's groups are asked: those of a table of one group, and of several. "Rules 6 and 9 .. over all earlier commands, since a neighbour in
// another group hides an older one".
ghost use Rattle.std.specs.Prelude.{◌≡◌, true, false, map, ◌<◌};
ghost use Rattle.records.specs.declared.table.Table.{Table};
ghost use Rattle.rules.specs.Kinds.{is_ref, is_known};
ghost use Rattle.rules.specs.Square.{group_of, square};
ghost use Rattle.rules.specs.State.{Held};
ghost use Rattle.timing.specs.Kept.{stamp_of, told_bank, told_group};
ghost use Rattle.broken.specs.ByState.{groups_far, found_on};

use broken::alone::found_alone;
use broken::among::found_among;
use distances::square::distances;
use records::command::Kind;
use records::table::Table;
use rules::verdict::Rule;
use timing::kept::{KeptBank, KeptGroup};

// A table and what is read of it often, for the judge's loop. The loop is compiled for each kind of table, so that one of one group does not pay
// for the others; the hints on inlining keep the groups where the loop has them.
pub trait Grouping {
    ghost table_of: { Self → Table };

    fn table(self) -> Table
        ensures { result ≡ table_of self };

    // The group of a bank.
    fn group(self, bank: u8) -> usize
        ensures own { result ≡ group_of (table_of self) bank }
        ensures low { result < (table_of self).groups };

    // The first of rules 2 to 12 that a record breaks which keeps rule 1 and is no REF, to bank k of the group `own` at cycle c; `cycle` is the first
    // that rule 2 lets it have.
    fn found(
        self,
        cycle: u64,
        k: KeptBank,
        groups: [KeptGroup; 8],
        own: usize,
        a4: u64,
        refresh: u64,
        kind: Kind,
        c: u64,
    ) -> Option<Rule>
        requires low { own < (table_of self).groups }
        requires known { is_known kind ≡ true }
        requires no_ref { is_ref kind ≡ false }
        ensures { result ≡ found_on (table_of self) cycle (told_bank k) (groups_far (table_of self) (map told_group groups) own kind c) (stamp_of a4) (stamp_of refresh) kind c };

    // What each must prove.
    ghost held: { (x : Self) → Held (table_of x) };
}

// A table of one group, whose group stands at a known place. `near` has the distances within it.
#[derive(Clone, Copy)]
pub struct OneGroup {
    pub table: Table,
    pub near: [[u32; 2]; 2],
    pub ghost held: { Held table },
    pub ghost one: { table.groups ≡ 1 },
    pub ghost near_is: { near ≡ square table true },
}

impl Grouping for OneGroup {
    ghost table_of = { λ x. x.table };

    ghost held = { λ x. x.held };

    #[inline(always)]
    fn table(self) -> Table {
        self.table
    }

    #[inline(always)]
    fn group(self, _bank: u8) -> usize {
        0
    }

    #[inline(always)]
    fn found(
        self,
        cycle: u64,
        k: KeptBank,
        groups: [KeptGroup; 8],
        _own: usize,
        a4: u64,
        refresh: u64,
        kind: Kind,
        c: u64,
    ) -> Option<Rule> {
        found_alone(
            self.table, self.near, cycle, k, groups[0], a4, refresh, kind, c,
        )
    }
}

// A table of several groups, each of which is asked; it serves any. `near` has the distances within a group, `away` those across.
#[derive(Clone, Copy)]
pub struct SeveralGroups {
    pub table: Table,
    pub near: [[u32; 2]; 2],
    pub away: [[u32; 2]; 2],
    pub ghost held: { Held table },
    pub ghost near_is: { near ≡ square table true },
    pub ghost away_is: { away ≡ square table false },
}

impl SeveralGroups {
    pub fn new(table: Table) -> SeveralGroups
        requires { Held table }
        ensures { result.table ≡ table }
    {
        SeveralGroups {
            table,
            near: distances(table, true),
            away: distances(table, false),
        }
    }
}

impl Grouping for SeveralGroups {
    ghost table_of = { λ x. x.table };

    ghost held = { λ x. x.held };

    #[inline(always)]
    fn table(self) -> Table {
        self.table
    }

    #[inline(always)]
    fn group(self, bank: u8) -> usize {
        grouped::groups::group_of(bank, self.table.groups)
    }

    #[inline(always)]
    fn found(
        self,
        cycle: u64,
        k: KeptBank,
        groups: [KeptGroup; 8],
        own: usize,
        a4: u64,
        refresh: u64,
        kind: Kind,
        c: u64,
    ) -> Option<Rule> {
        found_among(
            self.table, self.near, self.away, cycle, k, groups, own, a4, refresh, kind, c,
        )
    }
}
