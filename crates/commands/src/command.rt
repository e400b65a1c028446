// The command, 8 bytes, read and written.
ghost use Rattle.std.specs.Prelude.{◌≡◌, ◌+◌, ◌≤◌, length};
ghost use Rattle.records.specs.Told.{put_at, Leaves};
ghost use Rattle.records.specs.Command.{kind_of, command, command_at, bytes_of, read_command, write_command};

use records::command::{Command, Kind};
use records::little::{num_32_at, num_at, put_16, put_32};
use records::refusal::{Refusal, refuse};

// The command of the eight bytes from a place on.
pub fn command_at(s: &[u8], at: usize) -> Command
    requires { at + 8 ≤ length s.now }
    ensures { result ≡ command_at s.now at }
{
    Command {
        cycle: num_32_at(s, at),
        kind: Kind::from(s[at + 4]),
        bank: s[at + 5],
        number: num_at(s, at + 6),
    }
}

#[tactic(auto, unfolding(records::specs::Command::read_command))]
pub fn read_command(s: &[u8]) -> Result<Command, Refusal>
    ensures { result ≡ read_command s.now }
{
    if s.len() != 8 {
        return Err(refuse(7, 0, 0));
    }
    Ok(command_at(s, 0))
}

// Writes a command's eight bytes from a place on, and leaves all else.
#[tactic(auto, using(records::proofs::Bytes::put_8))]
pub fn put_command(c: Command, s: &mut [u8], at: usize)
    requires { at + 8 ≤ length s.old }
    ensures { s.new ≡ put_at s.old at (bytes_of c) }
{
    put_32(s, at, c.cycle);
    s[at + 4] = u8::from(c.kind);
    s[at + 5] = c.bank;
    put_16(s, at + 6, c.number);
}

// The values are plain numbers, so that every kind can be written.
#[tactic(auto, unfolding(records::specs::Command::write_command))]
pub fn write_command(
    cycle: u32,
    kind: u8,
    bank: u8,
    number: u16,
    s: &mut [u8],
) -> Result<u16, Refusal>
    ensures { Leaves (write_command (command cycle (kind_of kind) bank number) s.old) result s.new }
{
    if s.len() < 8 {
        return Err(refuse(5, 0, 0));
    }
    let c = Command {
        cycle,
        kind: Kind::from(kind),
        bank,
        number,
    };
    put_command(c, s, 0);
    Ok(0)
}
