// A run of a few cycles, which goes straight to the next cycle at which a command leaves and writes it there, or to the run's end.
ghost use Rattle.std.specs.Prelude.{[], ◌≤◌, length};
ghost use Rattle.records.specs.Command.{commands_from};
ghost use Rattle.records.specs.Transaction.{later_from};
ghost use Rattle.rules.specs.Run.{run as run_of};
ghost use Rattle.heads.specs.Queue.{Counted};
ghost use Rattle.timing.specs.Kept.{told};
ghost use Rattle.finishing.specs.Finish.{Marked};
ghost use Rattle.engine.specs.Run.{Ready, Runs};

use choices::choose::command_of;
use commands::command::put_command;
use distances::kinds::{is_closing, is_ref, is_wr};
use distances::square::distances;
use engine::run::Ran;
use grouped::groups::{group_moved, group_of, group_opened};
use heads::due::Counts;
use heads::queue::{advance, queue_after};
use records::table::Table;
use records::tests::{both_of, not_of};
use soonest::free::{LIMIT, end_of, ref_head_from};
use soonest::next::{data_after, data_queue};
use soonest::over::{latest_of, nine_from, opens_from, ready_from, rests_from};
use timing::kept::{Kept, KeptBank, either_64, kept_after};

// As the plain engine's `run`; and the cycle of each data command, and of each REF, is stored at its transaction's number. A turn has the earliest cycle
// of each head and goes there; where both are the same the data command goes. What no command since has changed is known from the turn before: `from_a`,
// of an ACT at the head of its queue, and `ready`, of the data queue's head by all but rule 9. While the data queue's head has an open bank, no REF goes.
// Each test is a call, since the proof goes over these steps one by one.
pub fn run_marked(
    t: Table,
    list: &[u8],
    n: usize,
    all: Counts,
    start: Kept,
    count: u32,
    buffer: &mut [u8],
    finishes: &mut [u32],
) -> Ran
    requires { Ready t list.now n (told start) count (length buffer.old) × Counted t list.now n all × (n ≤ length finishes.old) }
    ensures { Runs (run_of count t (later_from list.now n 0) (told start) []) buffer.old buffer.new result × Marked (commands_from buffer.new result.commands 0) finishes.old finishes.new }
{
    let near = distances(t, true);
    let away = distances(t, false);
    let end = end_of(start.cycle, false, count);
    let mut s = start;
    let groups = start.groups;
    let mut latest = latest_of(t.groups as usize, groups);
    let mut a = queue_after(t, list, n, false, start.acts);
    let mut d = data_queue(t, list, n, start.datas);
    let mut from_a: u64 = 0;
    let mut ready: u64 = 0;
    let mut knows_a = false;
    let mut knows_d = false;
    let mut k: usize = 0;
    loop {
        let cycle = s.cycle;
        let ah = a.head;
        let dh = d.head;
        let ai = ah.bank as usize;
        let di = dh.bank as usize;
        let ag = group_of(ah.bank, t.groups);
        let dg = group_of(dh.bank, t.groups);
        let refreshes = is_ref(ah.kind);
        let write = is_wr(dh.kind);
        ready = ready_from(knows_d, ready, t, dh, s.banks[di], s.acts);
        let nine = nine_from(
            t.groups,
            near,
            away,
            s.groups[dg].rd,
            s.groups[dg].wr,
            latest,
            write,
        );
        let from_d = ready.max(nine);
        from_a = opens_from(
            refreshes,
            knows_a,
            from_a,
            t,
            ah,
            s.banks[ai],
            s.groups[ag].act,
            latest.act,
            s.a4,
            s.refresh,
        );
        if both_of(refreshes, LIMIT <= from_d) {
            from_a = ref_head_from(t, ah, rests_from(t, s), s.refresh);
        }
        let at = cycle.max(from_d.min(from_a));
        if end <= at {
            let served = both_of(all.datas <= s.datas, all.acts <= s.acts);
            let stop = either_64(served, cycle, end);
            s.cycle = stop;
            let ran = (stop - start.cycle) as u32;
            return Ran {
                state: s,
                cycles: ran,
                commands: k,
            };
        }
        let next = at + 1;
        if from_d <= at {
            let number = dh.number as usize;
            put_command(command_of(dh, at), buffer, 8 * k);
            finishes[number] = at as u32;
            k = k + 1;
            d = data_after(t, list, n, d);
            let closes = is_closing(dh.kind);
            knows_a = dh.bank != ah.bank;
            knows_d = not_of(closes);
            s.cycle = next;
            s.datas = s.datas + 1;
            if write {
                s.banks[di] = kept_after(s.banks[di], true, closes, next);
                s.groups[dg] = group_moved(s.groups[dg], true, next);
                latest = group_moved(latest, true, next);
            } else {
                s.banks[di] = kept_after(s.banks[di], false, closes, next);
                s.groups[dg] = group_moved(s.groups[dg], false, next);
                latest = group_moved(latest, false, next);
            }
        } else {
            put_command(command_of(ah, at), buffer, 8 * k);
            k = k + 1;
            a = advance(t, list, n, false, a);
            knows_a = false;
            knows_d = both_of(dh.act != s.acts, dh.bank != ah.bank);
            s.cycle = next;
            s.acts = s.acts + 1;
            if refreshes {
                let number = ah.number as usize;
                finishes[number] = at as u32;
                s.refresh = next;
            } else {
                s.banks[ai] = KeptBank {
                    opened: 1,
                    act: next,
                    rd: 0,
                    wr: 0,
                };
                s.a4 = s.a3;
                s.a3 = s.a2;
                s.a2 = s.a1;
                s.a1 = next;
                s.groups[ag] = group_opened(s.groups[ag], next);
                latest = group_opened(latest, next);
            }
        }
    }
}

// As the plain engine's `run`, word for word.
pub fn run(
    t: Table,
    list: &[u8],
    n: usize,
    all: Counts,
    start: Kept,
    count: u32,
    buffer: &mut [u8],
) -> Ran
    requires { Ready t list.now n (told start) count (length buffer.old) × Counted t list.now n all }
    ensures { Runs (run_of count t (later_from list.now n 0) (told start) []) buffer.old buffer.new result }
{
    let mut unread = [0u32; 256];
    run_marked(t, list, n, all, start, count, buffer, &mut unread)
}
