// "From a fresh state to the end": the schedule and its finishing cycles, or number 5 or 6.
ghost use Rattle.std.specs.Prelude.{◌≡◌, [], ◌∷◌, ◌+◌, ◌*◌, ltb};
ghost use Rattle.records.specs.Told.{first_failed, checked};
ghost use Rattle.records.specs.Transaction.{later_from};
ghost use Rattle.heads.specs.Queue.{Listed};
ghost use Rattle.builder.specs.Build.{LeavesBuild};

use engine::promise::Engine;
use heads::due::{Counts, due};
use records::refusal::{Refusal, refuse};
use records::table::Table;

// Numbers 5 and 6, by what is due and the sizes of the two buffers.
pub fn check_build(
    all: Counts,
    room: usize,
    n: usize,
    places: usize,
    edition: u16,
) -> Result<(), Refusal>
    ensures { result ≡ checked (first_failed ((5, ltb room (8 * (all.acts + all.datas))) ∷ (6, ltb places n) ∷ [])) 0 edition }
{
    let bytes = 8 * (all.acts as usize + all.datas as usize);
    if room < bytes {
        return Err(refuse(5, 0, edition));
    }
    if places < n {
        return Err(refuse(6, 0, edition));
    }
    Ok(())
}

// By either engine. The list is n records of 8 bytes that fit an accepted table. A refused build changes neither buffer.
pub fn build_schedule<E: Engine>(
    t: Table,
    list: &[u8],
    n: usize,
    commands: &mut [u8],
    finishes: &mut [u32],
) -> Result<(u16, usize), Refusal>
    requires { Listed t list.now n }
    ensures { LeavesBuild t (later_from list.now n 0) commands.old commands.new finishes.old finishes.new result }
{
    let all = due(t, list, n);
    check_build(all, commands.len(), n, finishes.len(), t.edition)?;
    let s = E::build(t, list, n, commands, finishes);
    Ok((t.edition, s.commands))
}
