// The schedule of the cycle rule, with a finishing cycle for each transaction.
ghost use Rattle.std.specs.Prelude.{true, false};
ghost use Rattle.records.specs.Transaction.{transactions_in, later_in};
ghost use Rattle.lists.specs.Check.{check_bytes};
ghost use Rattle.promises.specs.Admit.{admitted};
ghost use Rattle.promises.specs.Schedules.{Schedules};

use engine::promise::Plain;
use records::refusal::Refusal;
use scheduler::schedules::schedule_records;

// Of records of 4 bytes.
pub fn schedule_bytes(
    expected: u16,
    table: &[u8],
    list: &[u8],
    commands: &mut [u8],
    finishes: &mut [u32],
) -> Result<(u16, usize), Refusal>
    ensures { Schedules (λ τ. check_bytes false τ list.now) (admitted expected table.now) (transactions_in list.now) commands.old commands.new finishes.old finishes.new result }
{
    schedule_records::<Plain>(expected, table, false, list, commands, finishes)
}

// Of records of 8 bytes.
pub fn schedule_later_bytes(
    expected: u16,
    table: &[u8],
    list: &[u8],
    commands: &mut [u8],
    finishes: &mut [u32],
) -> Result<(u16, usize), Refusal>
    ensures { Schedules (λ τ. check_bytes true τ list.now) (admitted expected table.now) (later_in list.now) commands.old commands.new finishes.old finishes.new result }
{
    schedule_records::<Plain>(expected, table, true, list, commands, finishes)
}
