// Records written, and judged as a pattern.
ghost use Rattle.std.specs.Prelude.{◌≡◌, true, false, ◌*◌, ◌≤◌, length as length_of, take};
ghost use Rattle.records.specs.Told.{over};
ghost use Rattle.records.specs.Command.{bytes_of_all};
ghost use Rattle.records.proofs.Written.{Each, Readable};
ghost use Rattle.rules.specs.Pattern.{EveryNumberLegal};
ghost use Rattle.rules.specs.State.{Held};
ghost use Rattle.shortest.specs.Search.{all_passed};

use commands::command::put_command;
use judge::pattern::judge_five;
use records::command::Command;
use records::table::Table;
use rules::verdict::PatternVerdict;

// The first n records, from the buffer's start on.
#[tactic(auto, using(crate::proofs::Written::wrote_more, crate::proofs::Written::wrote_length))]
pub fn write_records(items: [Command; 6], n: usize, out: &mut [u8])
    requires { (n ≤ 6) × (8 * n ≤ length_of out.old) }
    ensures { out.new ≡ over (bytes_of_all (take n items)) out.old }
{
    for i in 0..n {
        put_command(items[i], out, 8 * i);
    }
}

pub fn all_passed(v: PatternVerdict) -> bool
    ensures { result ≡ all_passed v }
{
    matches!(v, PatternVerdict::Accepted)
}

// The pattern judge on the first n records.
pub fn judge_records(t: Table, length: u32, n: usize, items: [Command; 6]) -> bool
    requires { Held t × (n ≤ 6) × Each Readable (take n items) }
    ensures { (result ≡ true → EveryNumberLegal t length (take n items)) × (result ≡ false → EveryNumberLegal t length (take n items) → ⊥) }
{
    let mut bytes = [0u8; 48];
    write_records(items, n, &mut bytes);
    let size = 8 * n;
    all_passed(judge_five(t, &bytes[..size], length))
}
