// The first rule that a record breaks, by a table of one group.
ghost use Rattle.std.specs.Prelude.{◌≡◌, true, false};
ghost use Rattle.rules.specs.Kinds.{is_ref, is_known};
ghost use Rattle.rules.specs.Square.{square};
ghost use Rattle.timing.specs.Kept.{stamp_of, told_bank, told_group};
ghost use Rattle.broken.specs.ByState.{own_far, found_on};

use crate::back::keeps_distance;
use crate::found::{act_found, data_found};
use distances::kinds::is_act;
use records::command::Kind;
use records::table::Table;
use rules::verdict::Rule;
use timing::kept::{KeptBank, KeptGroup, since};

// Rules 2 to 12 of a record that keeps rule 1 and is no REF, to bank k at cycle c, by a table of one group: `own` tells its latest
// ACT, RD and WR, and `cycle` is the first that rule 2 lets the record have.
#[tactic(auto, unfolding(crate::specs::ByState::found_on))]
pub fn found_alone(
    t: Table,
    near: [[u32; 2]; 2],
    cycle: u64,
    k: KeptBank,
    own: KeptGroup,
    a4: u64,
    refresh: u64,
    kind: Kind,
    c: u64,
) -> Option<Rule>
    requires { (near ≡ square t true) × (is_known kind ≡ true) × (is_ref kind ≡ false) }
    ensures { result ≡ found_on t cycle (told_bank k) (own_far t (told_group own) kind c) (stamp_of a4) (stamp_of refresh) kind c }
{
    if c < cycle {
        Some(Rule::Order)
    } else if is_act(kind) {
        act_found(t, k, since(own.act, u32::from(t.rrdl), c), a4, refresh, c)
    } else {
        data_found(t, k, keeps_distance(near, own.rd, own.wr, kind, c), c)
    }
}
