// The first rule that a record breaks, by a table of several groups.
ghost use Rattle.std.specs.Prelude.{◌≡◌, true, false, map, ◌≤◌};
ghost use Rattle.rules.specs.Kinds.{is_ref, is_known};
ghost use Rattle.rules.specs.Square.{square};
ghost use Rattle.timing.specs.Kept.{stamp_of, told_bank, told_group};
ghost use Rattle.broken.specs.ByState.{groups_far, found_on};

use crate::found::{act_found, data_found};
use distances::kinds::{is_act, is_wr};
use grouped::groups::{acts_far, data_far};
use records::command::Kind;
use records::table::Table;
use rules::verdict::Rule;
use timing::kept::{KeptBank, KeptGroup};

// Rules 2 to 12 of a record that keeps rule 1 and is no REF, to bank k of the group `own` at cycle c; `cycle` is the first that rule 2 lets it
// have. "Rules 6 and 9 .. over all earlier commands, since a neighbour in another group hides an older one": each group is asked for its latest.
// Inlined, since the search for the shortest pattern asks it at each cycle in turn.
#[inline(always)]
#[tactic(auto, unfolding(crate::specs::ByState::found_on))]
pub fn found_among(
    t: Table,
    near: [[u32; 2]; 2],
    away: [[u32; 2]; 2],
    cycle: u64,
    k: KeptBank,
    groups: [KeptGroup; 8],
    own: usize,
    a4: u64,
    refresh: u64,
    kind: Kind,
    c: u64,
) -> Option<Rule>
    requires { (t.groups ≤ 8) × (near ≡ square t true) × (away ≡ square t false) × (is_known kind ≡ true) × (is_ref kind ≡ false) }
    ensures { result ≡ found_on t cycle (told_bank k) (groups_far t (map told_group groups) own kind c) (stamp_of a4) (stamp_of refresh) kind c }
{
    if c < cycle {
        Some(Rule::Order)
    } else if is_act(kind) {
        act_found(t, k, acts_far(t, groups, own, c), a4, refresh, c)
    } else {
        data_found(
            t,
            k,
            data_far(t, near, away, groups, own, is_wr(kind), c),
            c,
        )
    }
}
