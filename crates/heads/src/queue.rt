// Where the two queues stand: found once by the counts of a state, and then moved on, command by command. `datas` tells which queue: the data
// queue, or else the ACT queue; it is a value, since the definitions (`queue_of`, `left_at`, `Stands`) take it.
ghost use Rattle.std.specs.Prelude.{◌≡◌, true, false, ◌+◌, ◌*◌, ◌≤◌, ◌<◌, eqb};
ghost use Rattle.records.specs.Tests.{pick};
ghost use Rattle.records.specs.Transaction.{later_from};
ghost use Rattle.rules.specs.Queues.{head_after};
ghost use Rattle.heads.specs.Head.{due_of};
ghost use Rattle.heads.specs.Queue.{Listed, queue_of, left_at, Placed, Found, Stands, BothStand};

use crate::head::{Head, act_head, data_head, no_head};
use records::table::Table;
use transactions::later::later_at;

// A place in a queue: a transaction's number, how many of its commands have left, and how many commands of the ACT
// queue belong to the transactions before it.
#[derive(Clone, Copy)]
pub struct Place {
    pub number: usize,
    pub offset: u32,
    pub before: u32,
}

#[derive(Clone, Copy)]
pub struct Queue {
    pub place: Place,
    pub head: Head,
}

#[derive(Clone, Copy)]
pub struct Queues {
    pub acts: Queue,
    pub datas: Queue,
}

// How many commands a transaction of a type puts into the ACT queue: BI ACTs, or one REF.
pub fn acts_in(kind: u8, bi: u8) -> u32
    ensures { (result ≡ pick (eqb kind 2) 1 bi) × (result ≤ 255) }
{
    if kind == 2 { 1 } else { bi as u32 }
}

// How many it puts into the data queue, or into the ACT queue.
pub fn size_in(datas: bool, kind: u8, bi: u8, bc: u8) -> u32
    ensures { result ≡ pick datas (bi * bc) (pick (eqb kind 2) 1 bi) }
{
    if datas {
        bi as u32 * bc as u32
    } else {
        acts_in(kind, bi)
    }
}

// The place, inside a transaction or past the last, at which as many commands have left. From a place at which one command more has left it
// reads two transactions at most.
pub fn seek(t: Table, list: &[u8], n: usize, datas: bool, from: Place) -> Place
    requires { Listed t list.now n × Placed t list.now n from }
    ensures { Found t list.now n datas (left_at t list.now datas from) result }
{
    let mut offset = from.offset;
    let mut before = from.before;
    for number in from.number..n {
        let x = later_at(list, 8 * number);
        let size = size_in(datas, x.kind, x.bi, x.bc);
        if offset < size {
            return Place {
                number,
                offset,
                before,
            };
        }
        offset -= size;
        before += acts_in(x.kind, x.bi);
    }
    Place {
        number: n,
        offset,
        before,
    }
}

// What stands at a place that was found.
pub fn head_at(t: Table, list: &[u8], n: usize, datas: bool, p: Place) -> Head
    requires { Listed t list.now n × Found t list.now n datas (left_at t list.now datas p) p }
    ensures { (due_of result ≡ head_after (queue_of datas t (later_from list.now n 0)) (left_at t list.now datas p)) × (result.bank < 16) }
{
    let i = p.number;
    if n <= i {
        return no_head();
    }
    let x = later_at(list, 8 * i);
    if datas {
        return data_head(t, x, i, p.before, p.offset);
    }
    act_head(t, x, i, p.before, p.offset)
}

pub fn queue_from(t: Table, list: &[u8], n: usize, datas: bool, from: Place) -> Queue
    requires { Listed t list.now n × Placed t list.now n from }
    ensures { Stands t list.now n datas (left_at t list.now datas from) result }
{
    let place = seek(t, list, n, datas, from);
    let head = head_at(t, list, n, datas, place);
    Queue { place, head }
}

// The data queue, or the ACT queue, that `count` commands have left.
pub fn queue_after(t: Table, list: &[u8], n: usize, datas: bool, count: u32) -> Queue
    requires { Listed t list.now n }
    ensures { Stands t list.now n datas count result }
{
    let start = Place {
        number: 0,
        offset: count,
        before: 0,
    };
    queue_from(t, list, n, datas, start)
}

// A queue that one command more has left.
pub fn advance(t: Table, list: &[u8], n: usize, datas: bool, q: Queue) -> Queue
    requires { Listed t list.now n × Placed t list.now n q.place × (q.place.offset < 4294967295) }
    ensures { Stands t list.now n datas (left_at t list.now datas q.place + 1) result }
{
    let next = Place {
        offset: q.place.offset + 1,
        ..q.place
    };
    queue_from(t, list, n, datas, next)
}

// Both queues, by the counts of a state.
pub fn queues_after(t: Table, list: &[u8], n: usize, acts: u32, datas: u32) -> Queues
    requires { Listed t list.now n }
    ensures { BothStand t list.now n acts datas result }
{
    Queues {
        acts: queue_after(t, list, n, false, acts),
        datas: queue_after(t, list, n, true, datas),
    }
}
