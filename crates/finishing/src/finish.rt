// The finishing cycles: a pass over the commands for each transaction's last command, and one over the transactions for where it finishes.
ghost use Rattle.std.specs.Prelude.{◌≡◌, true, ℕ, ◌+◌, ◌*◌, ◌≤◌, ◌<◌, ltb, length, get_or};
ghost use Rattle.records.specs.Tests.{pick, every};
ghost use Rattle.records.specs.Command.{commands_from};
ghost use Rattle.finishing.specs.Finish.{Marked, Finished};

use commands::command::command_at;
use distances::kinds::can_end;
use records::table::Table;
use transactions::later::later_at;

// Stores the cycle of each data command, and of each REF, at its transaction's number, in the order of the commands, so that the last one stays.
pub fn mark(bytes: &[u8], m: usize, finishes: &mut [u32])
    requires { (8 * m ≤ length bytes.now) × (every (λ c. ltb c.number (length finishes.old)) (commands_from bytes.now m 0) ≡ true) }
    ensures { Marked (commands_from bytes.now m 0) finishes.old finishes.new }
{
    for j in 0..m {
        let c = command_at(bytes, 8 * j);
        if can_end(c.kind) {
            finishes[c.number as usize] = c.cycle;
        }
    }
}

// "a read finishes at its last data command + RL + B, a write as before" (document 02, request 4); "A refresh finishes at its cycle + RFC"
// (request 5). A last command goes below 100,000,000, so the sums fit.
pub fn finish_of(refresh: bool, write: bool, c: u32, rl: u16, b: u16, rfc: u16) -> u32
    requires { c < 100000000 }
    ensures { result ≡ pick refresh (c + rfc) (pick write c (c + rl + b)) }
{
    if refresh {
        c + rfc as u32
    } else if write {
        c
    } else {
        c + rl as u32 + b as u32
    }
}

// For each of the first n transactions the cycle of its last command becomes its finishing cycle.
pub fn finish_all(t: Table, list: &[u8], n: usize, finishes: &mut [u32])
    requires { (8 * n ≤ length list.now) × (n ≤ length finishes.old) × ((k : ℕ) → k < n → get_or finishes.old k 0 < 100000000) }
    ensures { Finished t list.now n finishes.old finishes.new }
{
    for k in 0..n {
        let x = later_at(list, 8 * k);
        let refresh = x.kind == 2;
        let write = x.kind == 1;
        finishes[k] = finish_of(refresh, write, finishes[k], t.rl, t.b, t.rfc);
    }
}
