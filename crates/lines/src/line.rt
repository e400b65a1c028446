// One line each.
ghost use Rattle.std.specs.Prelude.{◌+◌, ◌≤◌, ◌++◌, length};
ghost use Rattle.text.specs.Puts.{Puts};
ghost use Rattle.lines.specs.Words.{space, kind_text};
ghost use Rattle.lines.specs.Lines.{first_line, command_line, finish_line, refused_line, accepted_line, broken_line};

use records::command::{Command, Kind};
use records::refusal::Refusal;
use text::{put_byte, put_number, put_number_then, put_word};

#[tactic(auto, using(crate::proofs::Long::first_long))]
pub fn put_first_line(out: &mut [u8], at: usize, edition: u16, commands: usize) -> usize
    requires { at + length (first_line edition commands) ≤ length out.old }
    ensures { Puts (first_line edition commands) at result out.old out.new }
{
    let a = put_word(out, at, b"edition ");
    let b = put_number(out, a, edition as u64);
    let c = put_word(out, b, b" commands ");
    put_number_then(out, c, commands as u64, b'\n')
}

#[tactic(auto, unfolding(crate::specs::Words::kind_text))]
fn put_kind(out: &mut [u8], at: usize, k: Kind) -> usize
    requires { at + length (kind_text k) ≤ length out.old }
    ensures { Puts (kind_text k) at result out.old out.new }
{
    match k {
        Kind::Act => put_word(out, at, b"ACT"),
        Kind::Rd => put_word(out, at, b"RD"),
        Kind::Rda => put_word(out, at, b"RDA"),
        Kind::Wr => put_word(out, at, b"WR"),
        Kind::Wra => put_word(out, at, b"WRA"),
        Kind::Ref => put_word(out, at, b"REF"),
        Kind::Other(n) => put_number(out, at, n as u64),
    }
}

#[tactic(auto, using(crate::proofs::Long::kind_long))]
fn put_kind_then(out: &mut [u8], at: usize, k: Kind) -> usize
    requires { at + length (kind_text k ++ space) ≤ length out.old }
    ensures { Puts (kind_text k ++ space) at result out.old out.new }
{
    let next = put_kind(out, at, k);
    put_byte(out, next, b' ')
}

#[tactic(auto, using(crate::proofs::Long::command_long))]
pub fn put_command_line(out: &mut [u8], at: usize, c: Command) -> usize
    requires { at + length (command_line c) ≤ length out.old }
    ensures { Puts (command_line c) at result out.old out.new }
{
    let a = put_number_then(out, at, c.cycle as u64, b' ');
    let b = put_kind_then(out, a, c.kind);
    let d = put_number_then(out, b, c.bank as u64, b' ');
    put_number_then(out, d, c.number as u64, b'\n')
}

#[tactic(auto, using(crate::proofs::Long::finish_long))]
pub fn put_finish_line(out: &mut [u8], at: usize, k: usize, cycle: u32) -> usize
    requires { at + length (finish_line k cycle) ≤ length out.old }
    ensures { Puts (finish_line k cycle) at result out.old out.new }
{
    let a = put_word(out, at, b"finish ");
    let b = put_number_then(out, a, k as u64, b' ');
    put_number_then(out, b, cycle as u64, b'\n')
}

#[tactic(auto, using(crate::proofs::Long::refused_long))]
pub fn put_refused_line(out: &mut [u8], at: usize, x: Refusal) -> usize
    requires { at + length (refused_line x) ≤ length out.old }
    ensures { Puts (refused_line x) at result out.old out.new }
{
    let a = put_word(out, at, b"refused ");
    let b = put_number(out, a, x.number as u64);
    let c = put_word(out, b, b" at ");
    let d = put_number(out, c, x.position as u64);
    let e = put_word(out, d, b" edition ");
    put_number_then(out, e, x.edition as u64, b'\n')
}

pub fn put_accepted_line(out: &mut [u8], at: usize) -> usize
    requires { at + length accepted_line ≤ length out.old }
    ensures { Puts accepted_line at result out.old out.new }
{
    put_word(out, at, b"accepted\n")
}

#[tactic(auto, using(crate::proofs::Long::broken_long))]
pub fn put_broken_line(out: &mut [u8], at: usize, n: u32, rule: u32) -> usize
    requires { at + length (broken_line n rule) ≤ length out.old }
    ensures { Puts (broken_line n rule) at result out.old out.new }
{
    let a = put_word(out, at, b"record ");
    let b = put_number(out, a, n as u64);
    let c = put_word(out, b, b" breaks rule ");
    put_number_then(out, c, rule as u64, b'\n')
}
