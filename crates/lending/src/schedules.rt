// The schedule of a lent run of records, with a finishing cycle for each transaction, by either engine.
ghost use Rattle.lists.specs.Check.{check_list};
ghost use Rattle.admission.specs.Admit.{admitted};
ghost use Rattle.scheduler.specs.Schedules.{Schedules};

use admission::admit::admit_lent;
use engine::promise::{Engine, Plain};
use jump::straight::Straight;
use packing::packed::gather;
use records::refusal::Refusal;
use records::transaction::Transaction;
use scheduler::schedules::schedule_held;

// Numbers 1, 2, 10, 3 to 6; then the schedule of a lent run of records, by either engine.
fn schedule_lent<E: Engine>(
    expected: u16,
    table: &[u8],
    list: &[Transaction],
    commands: &mut [u8],
    finishes: &mut [u32],
) -> Result<(u16, usize), Refusal>
    ensures { Schedules (λ τ. check_list τ list.now) (admitted expected table.now) list.now commands.old commands.new finishes.old finishes.new result }
{
    let w = admit_lent(expected, table, list.len());
    let bytes = gather(list, w.n);
    schedule_held::<E>(w, bytes, commands, finishes)
}

// By the plain engine.
pub fn schedule(
    expected: u16,
    table: &[u8],
    list: &[Transaction],
    commands: &mut [u8],
    finishes: &mut [u32],
) -> Result<(u16, usize), Refusal>
    ensures { Schedules (λ τ. check_list τ list.now) (admitted expected table.now) list.now commands.old commands.new finishes.old finishes.new result }
{
    schedule_lent::<Plain>(expected, table, list, commands, finishes)
}

// The same by the second engine.
pub fn schedule_straight(
    expected: u16,
    table: &[u8],
    list: &[Transaction],
    commands: &mut [u8],
    finishes: &mut [u32],
) -> Result<(u16, usize), Refusal>
    ensures { Schedules (λ τ. check_list τ list.now) (admitted expected table.now) list.now commands.old commands.new finishes.old finishes.new result }
{
    schedule_lent::<Straight>(expected, table, list, commands, finishes)
}
