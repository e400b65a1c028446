// The data queue: found by how many commands have left it, and moved on without a division, since its head tells to which of the transaction's banks it
// goes.
ghost use Rattle.std.specs.Prelude.{◌≡◌, true, ◌+◌};
ghost use Rattle.heads.specs.Queue.{Listed, left_at, Placed};
ghost use Rattle.soonest.specs.Next.{Stood, StaysOpen};

use distances::kinds::data_kind;
use heads::head::{Head, bank_at};
use heads::queue::{Place, Queue, head_at, seek};
use records::table::Table;
use transactions::later::later_at;

// From a place on.
pub fn data_from(t: Table, list: &[u8], n: usize, from: Place) -> Queue
    requires { Listed t list.now n × Placed t list.now n from }
    ensures { Stood t list.now n (left_at t list.now true from) result }
{
    let place = seek(t, list, n, true, from);
    let head = head_at(t, list, n, true, place);
    Queue { place, head }
}

// That `count` commands have left.
pub fn data_queue(t: Table, list: &[u8], n: usize, count: u32) -> Queue
    requires { Listed t list.now n }
    ensures { Stood t list.now n count result }
{
    let start = Place {
        number: 0,
        offset: count,
        before: 0,
    };
    data_from(t, list, n, start)
}

// That one command more has left. `ends` is how many data commands the transaction has up to the end of the head's bank.
pub fn data_after(t: Table, list: &[u8], n: usize, q: Queue) -> Queue
    requires { Listed t list.now n × Stood t list.now n (left_at t list.now true q.place) q × (q.head.there ≡ true) }
    ensures { Stood t list.now n (left_at t list.now true q.place + 1) result × StaysOpen q.head result.head }
{
    let p = q.place;
    let h = q.head;
    let x = later_at(list, 8 * p.number);
    let bc = x.bc as u32;
    let write = x.kind == 1;
    let k = h.act - p.before;
    let ends = (k + 1) * bc;
    let offset = p.offset + 1;
    let place = Place { offset, ..p };
    if offset < ends {
        let kind = data_kind(write, offset + 1 == ends);
        let head = Head {
            there: true,
            kind,
            ..h
        };
        Queue { place, head }
    } else if offset < x.bi as u32 * bc {
        let bank = bank_at(t, x, k + 1);
        let head = Head {
            there: true,
            kind: data_kind(write, bc == 1),
            bank,
            act: h.act + 1,
            ..h
        };
        Queue { place, head }
    } else {
        data_from(t, list, n, place)
    }
}
