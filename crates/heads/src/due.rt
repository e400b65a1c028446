// How many commands the list puts into the two queues.
ghost use Rattle.heads.specs.Queue.{Listed, Counted};

use crate::queue::size_in;
use records::table::Table;
use transactions::later::later_at;

#[derive(Clone, Copy)]
pub struct Counts {
    pub acts: u32,
    pub datas: u32,
}

pub fn due(t: Table, list: &[u8], n: usize) -> Counts
    requires { Listed t list.now n }
    ensures { Counted t list.now n result }
{
    let mut acts = 0;
    let mut datas = 0;
    for k in 0..n {
        let x = later_at(list, 8 * k);
        acts += size_in(false, x.kind, x.bi, x.bc);
        datas += size_in(true, x.kind, x.bi, x.bc);
    }
    Counts { acts, datas }
}
