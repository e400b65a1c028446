// The schedule of the cycle rule, with a finishing cycle for each transaction, behind the desk's calls, by either engine.
ghost use Rattle.std.specs.Prelude.{◌/◌, ◌≡◌, length, Ok};
ghost use Rattle.records.specs.Table.{Accepted};
ghost use Rattle.records.specs.Transaction.{later_in, list_of};
ghost use Rattle.heads.specs.Queue.{Listed};
ghost use Rattle.lists.specs.Check.{check_list, check_bytes};
ghost use Rattle.lists.specs.Packed.{held};
ghost use Rattle.builder.specs.Build.{LeavesBuild};
ghost use Rattle.admission.specs.Admit.{admitted, LetIn};
ghost use Rattle.scheduler.specs.Schedules.{Schedules, BuildsChecked};

use admission::admit::{WayIn, admit};
use builder::build::build_schedule;
use engine::promise::Engine;
use lists::check::check_bytes;
use packing::packed::widen;
use records::refusal::Refusal;
use records::table::Table;

// The schedule of a list of 8-byte records that fits an accepted table.
pub fn schedule_packed<E: Engine>(
    t: Table,
    list: &[u8],
    commands: &mut [u8],
    finishes: &mut [u32],
) -> Result<(u16, usize), Refusal>
    requires { Listed t list.now (length list.now / 8) }
    ensures { LeavesBuild t (later_in list.now) commands.old commands.new finishes.old finishes.new result }
{
    let n = list.len() / 8;
    build_schedule::<E>(t, list, n, commands, finishes)
}

// The same of records of 8 bytes where `later`, else of 4, which are widened; `later` stays a value, since the promise says it by `list_of later`.
pub fn schedule_fine<E: Engine>(
    t: Table,
    later: bool,
    list: &[u8],
    commands: &mut [u8],
    finishes: &mut [u32],
) -> Result<(u16, usize), Refusal>
    requires { Accepted t × (check_bytes later t list.now ≡ Ok tt) }
    ensures { LeavesBuild t (list_of later list.now) commands.old commands.new finishes.old finishes.new result }
{
    if later {
        return schedule_packed::<E>(t, list, commands, finishes);
    }
    let n = list.len() / 4;
    let bytes = widen(list, n);
    let end = 8 * n;
    schedule_packed::<E>(t, &bytes[..end], commands, finishes)
}

// Numbers 3 to 6, by an accepted table; then the schedule.
pub fn schedule_by<E: Engine>(
    t: Table,
    later: bool,
    list: &[u8],
    commands: &mut [u8],
    finishes: &mut [u32],
) -> Result<(u16, usize), Refusal>
    requires { Accepted t }
    ensures { BuildsChecked (check_bytes later t list.now) t (list_of later list.now) commands.old commands.new finishes.old finishes.new result }
{
    match check_bytes(t, later, list) {
        Ok(()) => schedule_fine::<E>(t, later, list, commands, finishes),
        Err(r) => Err(r),
    }
}

// Numbers 1, 2, 10, 3 to 6; then the schedule from the start of `commands`, the finishing cycles from the start of `finishes`.
pub fn schedule_records<E: Engine>(
    expected: u16,
    table: &[u8],
    later: bool,
    list: &[u8],
    commands: &mut [u8],
    finishes: &mut [u32],
) -> Result<(u16, usize), Refusal>
    ensures { Schedules (λ τ. check_bytes later τ list.now) (admitted expected table.now) (list_of later list.now) commands.old commands.new finishes.old finishes.new result }
{
    match admit(expected, table) {
        Ok(t) => schedule_by::<E>(t, later, list, commands, finishes),
        Err(r) => Err(r),
    }
}

// The same of a lent run of records, gathered.
pub fn schedule_held<E: Engine>(
    w: WayIn,
    bytes: [u8; 2048],
    commands: &mut [u8],
    finishes: &mut [u32],
) -> Result<(u16, usize), Refusal>
    requires { LetIn w }
    ensures { Schedules (λ τ. check_list τ (held w.n bytes)) w.table (held w.n bytes) commands.old commands.new finishes.old finishes.new result }
{
    let end = 8 * w.n;
    match w.table {
        Ok(t) => schedule_by::<E>(t, true, &bytes[..end], commands, finishes),
        Err(r) => Err(r),
    }
}
