// A run of a few cycles, which writes its commands.
ghost use Rattle.std.specs.Prelude.{◌≡◌, ◌&&◌, ◌||◌, [], leb, length};
ghost use Rattle.records.specs.Transaction.{later_from};
ghost use Rattle.rules.specs.Run.{run as run_of};
ghost use Rattle.heads.specs.Queue.{Counted};
ghost use Rattle.timing.specs.Kept.{told};
ghost use Rattle.engine.specs.Run.{Ready, Runs};

use choices::choose::{act_goes, command_of, data_goes, ref_waited};
use commands::command::put_command;
use distances::kinds::{is_closing, is_ref, is_wr};
use distances::square::distances;
use grouped::groups::{acts_far, data_far, group_moved, group_of, group_opened};
use heads::due::Counts;
use heads::queue::{Queues, advance, queues_after};
use records::table::Table;
use records::tests::both_of;
use timing::kept::{Kept, KeptBank, kept_after, kept_rests};

// What a run answers: the state it leaves, the cycles run, and how many commands it wrote.
#[derive(Clone, Copy)]
pub struct Ran {
    pub state: Kept,
    pub cycles: u32,
    pub commands: usize,
}

// The list is served, or the cycle is 100,000,000. Each answer has an arm of its own, so that the loop of `run` branches test by test: of one
// expression the compiler makes flags, and an idle cycle takes a fifth more time.
pub fn stops_at(acts: u32, datas: u32, due_acts: u32, due_datas: u32, c: u64) -> bool
    ensures { result ≡ ((leb due_datas datas && leb due_acts acts) || leb 100000000 c) }
{
    match (due_datas <= datas, due_acts <= acts) {
        (true, true) => true,
        (true, false) => 100000000 <= c,
        (false, _) => 100000000 <= c,
    }
}

// At most `count` cycles; `all` is what the list puts into the two queues. The commands go into the buffer from its start. The state is a
// local that is changed in place, cycle by cycle. A table of one group asks its group alone. The heads' groups are read again only where a
// command goes, so that an idle cycle reads no group of the state. The loop counts its cycles and each test is a call, since the proof goes over these
// steps one by one.
pub fn run(
    t: Table,
    list: &[u8],
    n: usize,
    all: Counts,
    start: Kept,
    count: u32,
    buffer: &mut [u8],
) -> Ran
    requires { Ready t list.now n (told start) count (length buffer.old) × Counted t list.now n all }
    ensures { Runs (run_of count t (later_from list.now n 0) (told start) []) buffer.old buffer.new result }
{
    let near = distances(t, true);
    let away = distances(t, false);
    let mut s = start;
    let mut q = queues_after(t, list, n, start.acts, start.datas);
    let mut dg = group_of(q.datas.head.bank, t.groups);
    let mut ag = group_of(q.acts.head.bank, t.groups);
    let mut gd = s.groups[dg];
    let mut ga = s.groups[ag];
    let mut i: u32 = 0;
    let mut k: usize = 0;
    while i < count {
        let cycle = s.cycle;
        if stops_at(s.acts, s.datas, all.acts, all.datas, cycle) {
            return Ran {
                state: s,
                cycles: i,
                commands: k,
            };
        }
        let a = q.acts;
        let d = q.datas;
        let ah = a.head;
        let dh = d.head;
        let di = dh.bank as usize;
        let kd = s.banks[di];
        i = i + 1;
        let later = cycle + 1;
        let moves = data_goes(t, near, dh, kd, gd, s.acts, cycle);
        let mut moves_far = true;
        if both_of(moves, t.groups != 1) {
            let asked = dh.kind;
            moves_far = data_far(t, near, away, s.groups, dg, is_wr(asked), cycle);
        }
        if both_of(moves, moves_far) {
            let kind = dh.kind;
            let write = is_wr(kind);
            put_command(command_of(dh, cycle), buffer, 8 * k);
            k = k + 1;
            let next = advance(t, list, n, true, d);
            q = Queues {
                acts: a,
                datas: next,
            };
            s.cycle = later;
            s.datas = s.datas + 1;
            s.banks[di] = kept_after(kd, write, is_closing(kind), later);
            s.groups[dg] = group_moved(s.groups[dg], write, later);
            dg = group_of(next.head.bank, t.groups);
            gd = s.groups[dg];
            ga = s.groups[ag];
        } else {
            let head = ah.kind;
            if is_ref(head) {
                if ref_waited(t, ah, s.refresh, cycle) {
                    if kept_rests(t, s, cycle) {
                        put_command(command_of(ah, cycle), buffer, 8 * k);
                        k = k + 1;
                        let next = advance(t, list, n, false, a);
                        q = Queues {
                            acts: next,
                            datas: d,
                        };
                        s.cycle = later;
                        s.acts = s.acts + 1;
                        s.refresh = later;
                        ag = group_of(next.head.bank, t.groups);
                        ga = s.groups[ag];
                    } else {
                        s.cycle = later;
                    }
                } else {
                    s.cycle = later;
                }
            } else {
                let ai = ah.bank as usize;
                let ka = s.banks[ai];
                let opens = act_goes(t, ah, ka, ga, s.a4, s.refresh, cycle);
                let mut opens_far = true;
                if both_of(opens, t.groups != 1) {
                    opens_far = acts_far(t, s.groups, ag, cycle);
                }
                if both_of(opens, opens_far) {
                    put_command(command_of(ah, cycle), buffer, 8 * k);
                    k = k + 1;
                    let next = advance(t, list, n, false, a);
                    q = Queues {
                        acts: next,
                        datas: d,
                    };
                    s.cycle = later;
                    s.acts = s.acts + 1;
                    s.banks[ai] = KeptBank {
                        opened: 1,
                        act: later,
                        rd: 0,
                        wr: 0,
                    };
                    s.a4 = s.a3;
                    s.a3 = s.a2;
                    s.a2 = s.a1;
                    s.a1 = later;
                    s.groups[ag] = group_opened(s.groups[ag], later);
                    ag = group_of(next.head.bank, t.groups);
                    gd = s.groups[dg];
                    ga = s.groups[ag];
                } else {
                    s.cycle = later;
                }
            }
        }
    }
    Ran {
        state: s,
        cycles: i,
        commands: k,
    }
}
