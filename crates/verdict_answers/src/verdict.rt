// The judges' verdicts, and whether a schedule serves a list, as structs of plain numbers.
ghost use Rattle.std.specs.Prelude.{◌≡◌, [], ◌<◌};
ghost use Rattle.verdict_answers.specs.Verdicts.{saying, not_saying, verdict_said, verdict_of, pattern_said, pattern_of, capture_said, capture_of, commands_written, serves_answer, served_said, serves_of};
ghost use Rattle.promises.specs.Numbers.{telling};

use answers::answer::{from_16, refused};
use promises::numbers::rule_number;
use records::refusal::Refusal;
use rules::verdict::{PatternVerdict, Verdict};
use serves::answer::Served;

// `rule` is 0 where the records are accepted; `copy` counts from 1, and is 0 for a schedule; `record` counts from 0.
#[repr(C)]
#[derive(Clone, Copy)]
pub struct VerdictAnswer {
    pub refused: u32,
    pub position: u32,
    pub edition: u32,
    pub rule: u32,
    pub copy: u32,
    pub record: u32,
}

// `count` is how many commands were written; `rule` is 0 where they are accepted; `record` counts them from 0.
#[repr(C)]
#[derive(Clone, Copy)]
pub struct CaptureAnswer {
    pub refused: u32,
    pub position: u32,
    pub edition: u32,
    pub count: u32,
    pub rule: u32,
    pub record: u32,
}

// `serves` is 1 where the schedule serves the list, and else 0. Where it does not, `rule` is that of the judge's verdict, and `record` counts from 0;
// or `rule` is 0, and `transaction` is the lowest at fault, or the list's length.
#[repr(C)]
#[derive(Clone, Copy)]
pub struct ServesAnswer {
    pub refused: u32,
    pub position: u32,
    pub edition: u32,
    pub serves: u32,
    pub rule: u32,
    pub record: u32,
    pub transaction: u32,
}

pub fn said(edition: u16, rule: u32, copy: u32, place: u32) -> VerdictAnswer
    ensures { result ≡ saying edition rule copy place }
{
    VerdictAnswer {
        refused: 0,
        position: 0,
        edition: from_16(edition),
        rule,
        copy,
        record: place,
    }
}

pub fn not_said(x: Refusal) -> VerdictAnswer
    ensures { result ≡ not_saying x }
{
    let r = refused(x);
    VerdictAnswer {
        refused: r.refused,
        position: r.position,
        edition: r.edition,
        rule: 0,
        copy: 0,
        record: 0,
    }
}

pub fn verdict_said(edition: u16, v: Verdict) -> VerdictAnswer
    ensures { result ≡ verdict_said edition v }
{
    match v {
        Verdict::Accepted => said(edition, 0, 0, 0),
        Verdict::Refused(x, i) => said(edition, rule_number(x), 0, i),
    }
}

pub fn verdict_of(j: Result<(u16, Verdict), Refusal>) -> VerdictAnswer
    ensures { result ≡ verdict_of j }
{
    match j {
        Ok((e, v)) => verdict_said(e, v),
        Err(x) => not_said(x),
    }
}

pub fn pattern_said(edition: u16, v: PatternVerdict) -> VerdictAnswer
    ensures { result ≡ pattern_said edition v }
{
    match v {
        PatternVerdict::Accepted => said(edition, 0, 0, 0),
        PatternVerdict::Refused(x, k, i) => said(edition, rule_number(x), k, i),
    }
}

pub fn pattern_of(j: Result<(u16, PatternVerdict), Refusal>) -> VerdictAnswer
    ensures { result ≡ pattern_of j }
{
    match j {
        Ok((e, v)) => pattern_said(e, v),
        Err(x) => not_said(x),
    }
}

pub fn capture_said(edition: u16, count: u32, v: Verdict) -> CaptureAnswer
    ensures { result ≡ capture_said edition count v }
{
    let a = verdict_said(edition, v);
    CaptureAnswer {
        refused: a.refused,
        position: a.position,
        edition: a.edition,
        count,
        rule: a.rule,
        record: a.record,
    }
}

// A capture's commands are counted in 32 bits: there are at most 69,632.
pub fn capture_of(j: Result<(u16, usize, Verdict), Refusal>) -> CaptureAnswer
    requires { commands_written j < 4294967296 }
    ensures { result ≡ capture_of j }
{
    match j {
        Ok((e, n, v)) => capture_said(e, n as u32, v),
        Err(x) => {
            let r = refused(x);
            CaptureAnswer {
                refused: r.refused,
                position: r.position,
                edition: r.edition,
                count: 0,
                rule: 0,
                record: 0,
            }
        }
    }
}

pub fn serves_told(
    edition: u16,
    serves: u32,
    rule: u32,
    place: u32,
    transaction: u32,
) -> ServesAnswer
    ensures { result ≡ serves_answer (telling edition []) serves rule place transaction }
{
    ServesAnswer {
        refused: 0,
        position: 0,
        edition: from_16(edition),
        serves,
        rule,
        record: place,
        transaction,
    }
}

pub fn served_said(edition: u16, a: Served) -> ServesAnswer
    ensures { result ≡ served_said edition a }
{
    match a {
        Served::Serves => serves_told(edition, 1, 0, 0, 0),
        Served::Refused(x, i) => serves_told(edition, 0, rule_number(x), i, 0),
        Served::AtFault(x) => serves_told(edition, 0, 0, 0, x),
    }
}

pub fn serves_of(s: Result<(u16, Served), Refusal>) -> ServesAnswer
    ensures { result ≡ serves_of s }
{
    match s {
        Ok((e, a)) => served_said(e, a),
        Err(x) => {
            let r = refused(x);
            ServesAnswer {
                refused: r.refused,
                position: r.position,
                edition: r.edition,
                serves: 0,
                rule: 0,
                record: 0,
                transaction: 0,
            }
        }
    }
}
