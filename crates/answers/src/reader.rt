// What a reader of one record answers, as structs of plain numbers.
ghost use Rattle.std.specs.Prelude.{◌≡◌};
ghost use Rattle.records.specs.Table.{group_numbers_of};
ghost use Rattle.answers.specs.Answers.{of_table, of_transaction, command_answer, of_command, of_capture_record};

use crate::answer::{from_16, refused};
use records::command::Command;
use records::refusal::Refusal;
use records::table::Table;
use records::transaction::Transaction;
use stamps::one_record::CaptureRecord;

// Of a table of 32 bytes the last four numbers are one group and the short CCD, RRD and WTR again.
#[repr(C)]
#[derive(Clone, Copy)]
pub struct TableAnswer {
    pub refused: u32,
    pub position: u32,
    pub edition: u32,
    pub numbers: [u16; 20],
}

#[repr(C)]
#[derive(Clone, Copy)]
pub struct TransactionAnswer {
    pub refused: u32,
    pub position: u32,
    pub edition: u32,
    pub kind: u8,
    pub start: u8,
    pub bi: u8,
    pub bc: u8,
    // Of one of 4 bytes 0.
    pub arrival: u32,
}

#[repr(C)]
#[derive(Clone, Copy)]
pub struct CommandAnswer {
    pub refused: u32,
    pub position: u32,
    pub edition: u32,
    pub cycle: u32,
    pub kind: u8,
    pub bank: u8,
    pub number: u16,
}

#[repr(C)]
#[derive(Clone, Copy)]
pub struct CaptureRecordAnswer {
    pub refused: u32,
    pub position: u32,
    pub edition: u32,
    pub stamp: u16,
    pub kind: u8,
    pub bank: u8,
}

pub fn numbers_of(t: Table) -> [u16; 20]
    ensures { result ≡ group_numbers_of t }
{
    [
        t.edition, t.banks, t.b, t.ccd, t.rcd, t.rp, t.ras, t.rc, t.rrd, t.faw, t.rl, t.wl, t.rtp,
        t.wr, t.wtr, t.rfc, t.groups, t.ccdl, t.rrdl, t.wtrl,
    ]
}

pub fn of_table(a: Result<Table, Refusal>) -> TableAnswer
    ensures { result ≡ of_table a }
{
    match a {
        Ok(t) => {
            let numbers = numbers_of(t);
            TableAnswer {
                refused: 0,
                position: 0,
                edition: from_16(t.edition),
                numbers,
            }
        }
        Err(x) => {
            let r = refused(x);
            TableAnswer {
                refused: r.refused,
                position: r.position,
                edition: r.edition,
                numbers: [0; 20],
            }
        }
    }
}

pub fn of_transaction(a: Result<Transaction, Refusal>) -> TransactionAnswer
    ensures { result ≡ of_transaction a }
{
    match a {
        Ok(t) => TransactionAnswer {
            refused: 0,
            position: 0,
            edition: 0,
            kind: t.kind,
            start: t.start,
            bi: t.bi,
            bc: t.bc,
            arrival: t.arrival,
        },
        Err(x) => {
            let r = refused(x);
            TransactionAnswer {
                refused: r.refused,
                position: r.position,
                edition: r.edition,
                kind: 0,
                start: 0,
                bi: 0,
                bc: 0,
                arrival: 0,
            }
        }
    }
}

pub fn told_command(c: Command) -> CommandAnswer
    ensures { result ≡ command_answer c }
{
    CommandAnswer {
        refused: 0,
        position: 0,
        edition: 0,
        cycle: c.cycle,
        kind: u8::from(c.kind),
        bank: c.bank,
        number: c.number,
    }
}

pub fn of_command(a: Result<Command, Refusal>) -> CommandAnswer
    ensures { result ≡ of_command a }
{
    match a {
        Ok(c) => told_command(c),
        Err(x) => {
            let r = refused(x);
            CommandAnswer {
                refused: r.refused,
                position: r.position,
                edition: r.edition,
                cycle: 0,
                kind: 0,
                bank: 0,
                number: 0,
            }
        }
    }
}

pub fn of_capture_record(a: Result<CaptureRecord, Refusal>) -> CaptureRecordAnswer
    ensures { result ≡ of_capture_record a }
{
    match a {
        Ok(x) => CaptureRecordAnswer {
            refused: 0,
            position: 0,
            edition: 0,
            stamp: x.stamp,
            kind: x.kind,
            bank: x.bank,
        },
        Err(x) => {
            let r = refused(x);
            CaptureRecordAnswer {
                refused: r.refused,
                position: r.position,
                edition: r.edition,
                stamp: 0,
                kind: 0,
                bank: 0,
            }
        }
    }
}
