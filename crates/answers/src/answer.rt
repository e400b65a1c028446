// The desk's answers as structs of plain numbers, which is what crosses to the host. Each is made by its definition in specs/Answers.
ghost use Rattle.std.specs.Prelude.{◌≡◌, ◌<◌};
ghost use Rattle.answers.specs.Answers.{answer, refusing, of_written, of_read, count_of, of_build, of_bound, of_start, start_of, of_run, run_of};

use controller::controller::Controller;
use controller::run::{RunReport, RunTold};
use promises::starting::StartTold;
use records::refusal::Refusal;

// `refused` is 0, or the refusal's number; `edition` is the table's, or the refusal's; `count` the commands written, the transactions read or
// the bound; `cycles` the cycles run.
#[repr(C)]
#[derive(Clone, Copy)]
pub struct Answer {
    pub refused: u32,
    pub position: u32,
    pub edition: u32,
    pub count: u32,
    pub cycles: u32,
}

#[repr(C)]
#[derive(Clone, Copy)]
pub struct StartAnswer {
    pub controller: Controller,
    pub answer: Answer,
}

#[repr(C)]
#[derive(Clone, Copy)]
pub struct RunAnswer {
    pub controller: Controller,
    pub answer: Answer,
}

pub fn from_8(x: u8) -> u32
    ensures { result ≡ x }
{
    x as u32
}

pub fn from_16(x: u16) -> u32
    ensures { result ≡ x }
{
    x as u32
}

pub fn told(edition: u16, count: u32, cycles: u32) -> Answer
    ensures { result ≡ answer edition count cycles }
{
    Answer {
        refused: 0,
        position: 0,
        edition: from_16(edition),
        count,
        cycles,
    }
}

pub fn refused(x: Refusal) -> Answer
    ensures { result ≡ refusing x }
{
    Answer {
        refused: from_8(x.number),
        position: x.position,
        edition: from_16(x.edition),
        count: 0,
        cycles: 0,
    }
}

pub fn of_written(w: Result<u16, Refusal>) -> Answer
    ensures { result ≡ of_written w }
{
    match w {
        Ok(e) => told(e, 0, 0),
        Err(x) => refused(x),
    }
}

pub fn of_read(d: Result<(u16, u32), Refusal>) -> Answer
    ensures { result ≡ of_read d }
{
    match d {
        Ok((e, count)) => told(e, count, 0),
        Err(x) => refused(x),
    }
}

// A schedule's commands are counted in 32 bits: there are at most 69,632.
pub fn of_build(b: Result<(u16, usize), Refusal>) -> Answer
    requires { count_of b < 4294967296 }
    ensures { result ≡ of_build b }
{
    match b {
        Ok((e, n)) => told(e, n as u32, 0),
        Err(x) => refused(x),
    }
}

pub fn of_bound(b: Result<(u16, u32), Refusal>) -> Answer
    ensures { result ≡ of_bound b }
{
    match b {
        Ok((e, n)) => told(e, n, 0),
        Err(x) => refused(x),
    }
}

pub fn of_start(s: Result<u16, Refusal>) -> Answer
    ensures { result ≡ of_start s }
{
    match s {
        Ok(e) => told(e, 0, 0),
        Err(x) => refused(x),
    }
}

pub fn of_run(a: Result<RunReport, Refusal>) -> Answer
    ensures { result ≡ of_run a }
{
    match a {
        Ok(x) => told(x.edition, x.commands, x.cycles),
        Err(x) => refused(x),
    }
}

pub fn start_of(s: StartTold) -> StartAnswer
    ensures { result ≡ start_of s }
{
    let controller = s.controller;
    let said = s.answer;
    let answer = of_start(said);
    StartAnswer { controller, answer }
}

pub fn run_of(o: RunTold) -> RunAnswer
    ensures { result ≡ run_of o }
{
    let controller = o.controller;
    let said = o.answer;
    let answer = of_run(said);
    RunAnswer { controller, answer }
}
