// Numbers 5, 9 and 12 of a run.
ghost use Rattle.std.specs.Prelude.{◌≡◌, not, [], ◌∷◌, ◌+◌, ◌-◌, ◌*◌, ◌≤◌, ltb};
ghost use Rattle.records.specs.Told.{first_failed, checked};
ghost use Rattle.records.specs.Transaction.{later_from};
ghost use Rattle.heads.specs.Queue.{Listed, Counted};
ghost use Rattle.timing.specs.Kept.{told};
ghost use Rattle.sound.specs.Refused.{room_short, gone_backed, sound_by, run_refusal};

use heads::due::Counts;
use heads::queue::queue_after;
use records::refusal::{Refusal, refuse};
use records::table::Table;
use sound::late::{is_late, is_over};
use sound::stored::{banks_before, groups_before, last_before};
use timing::kept::Kept;

// "what each queue still holds, counted queue by queue and added", of queues of `a` and `d` commands
pub fn left_of(a: u32, d: u32, acts: u32, datas: u32) -> u64
    ensures { result ≡ (a - acts) + (d - datas) }
{
    a.saturating_sub(acts) as u64 + d.saturating_sub(datas) as u64
}

// Number 5, by the most commands that the run can write.
pub fn is_short(room: usize, most: u64) -> bool
    requires { most ≤ 4294967295 }
    ensures { result ≡ ltb room (8 * most) }
{
    room < (8 * most) as usize
}

// No more data commands gone than the list puts into the queue, and each has had its ACT. The last gone decides, since the places of ACTs
// ascend along the data queue.
pub fn is_backed(t: Table, list: &[u8], n: usize, acts: u32, datas: u32) -> bool
    requires { Listed t list.now n }
    ensures { result ≡ gone_backed t (later_from list.now n 0) acts datas }
{
    if datas == 0 {
        return true;
    }
    let last = queue_after(t, list, n, true, datas - 1).head;
    last.there && last.act < acts
}

// Number 9 does not apply: `due` ACTs stand in the queue, `gone` tells of the data commands gone, and `more` of the transactions lent before.
pub fn is_sound(t: Table, s: Kept, due: u32, gone: bool, more: bool) -> bool
    requires { (t.banks ≤ 16) × (t.groups ≤ 8) }
    ensures { result ≡ sound_by t (told s) due gone more }
{
    let now = s.cycle;
    now < 100000000
        && s.edition == t.edition as u32
        && banks_before(s.banks, t.banks, now)
        && groups_before(s.groups, t.groups, now)
        && last_before(s.a1, s.a2, s.a3, s.a4, s.refresh, now)
        && s.acts <= due
        && gone
        && !more
}

// Numbers 5, 9 and 12; `sound` says that number 9 does not apply, `late` that number 12 does.
pub fn check_numbers(
    room: usize,
    count: u32,
    left: u64,
    sound: bool,
    late: bool,
    edition: u16,
) -> Result<(), Refusal>
    ensures { result ≡ checked (first_failed ((5, room_short room count left) ∷ (9, not sound) ∷ (12, late) ∷ [])) 0 edition }
{
    if is_short(room, (count as u64).min(left)) {
        return Err(refuse(5, 0, edition));
    }
    if !sound {
        return Err(refuse(9, 0, edition));
    }
    if late {
        return Err(refuse(12, 0, edition));
    }
    Ok(())
}

// A run from what a state tells; `all` is what the list puts into the two queues.
pub fn check_run(
    t: Table,
    list: &[u8],
    n: usize,
    all: Counts,
    s: Kept,
    count: u32,
    room: usize,
) -> Result<(), Refusal>
    requires { Listed t list.now n × Counted t list.now n all }
    ensures { result ≡ checked (run_refusal t (later_from list.now n 0) (told s) count room) 0 t.edition }
{
    let left = left_of(all.acts, all.datas, s.acts, s.datas);
    let gone = is_backed(t, list, n, s.acts, s.datas);
    let more = is_over(n, s.lent);
    let sound = is_sound(t, s, all.acts, gone, more);
    let late = is_late(list, n, s.lent, s.cycle);
    check_numbers(room, count, left, sound, late, t.edition)
}
