// The capture written as command records.
ghost use Rattle.std.specs.Prelude.{◌≡◌, ◌*◌, ◌≤◌, length};
ghost use Rattle.records.specs.Told.{over};
ghost use Rattle.records.specs.Command.{kind_of, command, bytes_of_all};
ghost use Rattle.stamps.specs.Capture.{timed_in, lowest};
ghost use Rattle.capture.specs.Answer.{capture_count, commands_seen};

use commands::command::put_command;
use records::command::{Command, Kind};
use stamps::one_record::{cycle_after, is_tick, record_at};

// A command of the capture: its transaction number is 0.
pub fn command_of(cycle: u64, kind: u8, bank: u8) -> Command
    requires { cycle ≤ 4294967295 }
    ensures { result ≡ command cycle (kind_of kind) bank 0 }
{
    Command {
        cycle: cycle as u32,
        kind: Kind::from(kind),
        bank,
        number: 0,
    }
}

// Number 11 names no record, and there is room.
pub fn write_commands(s: &[u8], commands: &mut [u8])
    requires { (lowest (timed_in s.now) ≡ capture_count s.now) × (8 * length (commands_seen s.now) ≤ length commands.old) }
    ensures { commands.new ≡ over (bytes_of_all (commands_seen s.now)) commands.old }
{
    let mut stamp: u16 = 0;
    let mut cycle: u64 = 0;
    let mut k: usize = 0;
    for i in 0..s.len() / 4 {
        let x = record_at(s, i * 4);
        cycle = cycle_after(stamp, cycle, x.stamp);
        stamp = x.stamp;
        if is_tick(x.kind, x.bank) {
            continue;
        }
        put_command(command_of(cycle, x.kind, x.bank), commands, 8 * k);
        k += 1;
    }
}
