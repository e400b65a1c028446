// What the judge answers.

// The rules of document 01, in the order of their numbers, 1 to 12. Rule 10 is asked at the end, the others of each record.
#[derive(Clone, Copy, Debug, PartialEq, Eq)]
pub enum Rule {
    Range,
    Order,
    Opened,
    Precharge,
    Rc,
    Rrd,
    Faw,
    Rcd,
    Distance,
    End,
    Refresh,
    Rfc,
}

// A verdict on a schedule: the broken rule and the record's number, from 0. It is no `Result`: a verdict against a schedule is an answer, and the
// `Result` around it tells whether the call was refused.
#[derive(Clone, Copy, Debug, PartialEq, Eq)]
pub enum Verdict {
    Accepted,
    Refused(Rule, u32),
}

// A verdict on a pattern, likewise: the broken rule, the copy, from 1, and the record's number in it, from 0.
#[derive(Clone, Copy, Debug, PartialEq, Eq)]
pub enum PatternVerdict {
    Accepted,
    Refused(Rule, u32, u32),
}
