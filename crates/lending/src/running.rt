// A controller that is run where it lies, over a lent run of records, by either engine.
ghost use Rattle.lists.specs.Check.{check_list};
ghost use Rattle.admission.specs.Admit.{admitted};
ghost use Rattle.runner.specs.Running.{running, Runs};

use admission::admit::admit_lent;
use controller::controller::Controller;
use controller::run::RunReport;
use engine::promise::{Engine, Plain};
use jump::straight::Straight;
use packing::packed::gather;
use records::refusal::Refusal;
use records::transaction::Transaction;
use runner::running::{has_run, run_held};

// The host's form: the controller is run where it lies, over a lent run of records, by either engine.
fn run_lent<E: Engine>(
    c: &mut Controller,
    expected: u16,
    table: &[u8],
    list: &[Transaction],
    count: u32,
    room: &mut [u8],
) -> Result<RunReport, Refusal>
    ensures { Runs (running (λ τ. check_list τ list.now) (admitted expected table.now) c.old list.now count room.old) result c.new room.new }
{
    let w = admit_lent(expected, table, list.len());
    let bytes = gather(list, w.n);
    let o = run_held::<E>(*c, w, bytes, count, room);
    if has_run(o.answer) {
        *c = o.controller;
    }
    o.answer
}

// By the plain engine.
pub fn run(
    c: &mut Controller,
    expected: u16,
    table: &[u8],
    list: &[Transaction],
    count: u32,
    room: &mut [u8],
) -> Result<RunReport, Refusal>
    ensures { Runs (running (λ τ. check_list τ list.now) (admitted expected table.now) c.old list.now count room.old) result c.new room.new }
{
    run_lent::<Plain>(c, expected, table, list, count, room)
}

// One cycle.
pub fn step(
    c: &mut Controller,
    expected: u16,
    table: &[u8],
    list: &[Transaction],
    room: &mut [u8],
) -> Result<RunReport, Refusal>
    ensures { Runs (running (λ τ. check_list τ list.now) (admitted expected table.now) c.old list.now 1 room.old) result c.new room.new }
{
    run(c, expected, table, list, 1, room)
}

// The same by the second engine.
pub fn run_straight(
    c: &mut Controller,
    expected: u16,
    table: &[u8],
    list: &[Transaction],
    count: u32,
    room: &mut [u8],
) -> Result<RunReport, Refusal>
    ensures { Runs (running (λ τ. check_list τ list.now) (admitted expected table.now) c.old list.now count room.old) result c.new room.new }
{
    run_lent::<Straight>(c, expected, table, list, count, room)
}

pub fn step_straight(
    c: &mut Controller,
    expected: u16,
    table: &[u8],
    list: &[Transaction],
    room: &mut [u8],
) -> Result<RunReport, Refusal>
    ensures { Runs (running (λ τ. check_list τ list.now) (admitted expected table.now) c.old list.now 1 room.old) result c.new room.new }
{
    run_straight(c, expected, table, list, 1, room)
}
