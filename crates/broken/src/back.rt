// Rule 9 by the latest RD and WR of a group alone.
ghost use Rattle.std.specs.Prelude.{◌≡◌};
ghost use Rattle.rules.specs.Kinds.{is_wr};
ghost use Rattle.rules.specs.State.{far_by};
ghost use Rattle.timing.specs.Kept.{stamp_of};

use distances::kinds::is_wr;
use records::command::Kind;
use timing::kept::kept_far;

// A data command of a kind at cycle c is no nearer to a group's latest RD and to its latest WR than their distance. Cycles ascend and a distance
// hangs on the two kinds and on whether the groups are one: of a group's earlier reads the latest decides, and likewise of its earlier writes.
// The law is `groups-data` (`rules`).
pub fn keeps_distance(q: [[u32; 2]; 2], rd: u64, wr: u64, kind: Kind, c: u64) -> bool
    ensures { result ≡ far_by q (stamp_of rd) (stamp_of wr) (is_wr kind) c }
{
    kept_far(q, rd, wr, is_wr(kind), c)
}
