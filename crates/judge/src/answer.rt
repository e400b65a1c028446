// What the judges answer, and what they refuse before they judge.
ghost use Rattle.std.specs.Prelude.{◌≡◌};
ghost use Rattle.records.specs.Told.{checked};
ghost use Rattle.judge.specs.Answer.{not_a_schedule, schedule_refusal, pattern_refusal};

use records::refusal::{Refusal, refuse};
use rules::verdict::{PatternVerdict, Verdict};

// "schedule bytes not a multiple of 8, or over 69,632 records"
pub fn not_a_schedule(size: usize) -> bool
    ensures { result ≡ not_a_schedule size }
{
    size % 8 != 0 || 69632 < size / 8
}

// Number 7 of a schedule of so many bytes.
pub fn check_schedule(size: usize, edition: u16) -> Result<(), Refusal>
    ensures { result ≡ checked (schedule_refusal size) 0 edition }
{
    if not_a_schedule(size) {
        return Err(refuse(7, 0, edition));
    }
    Ok(())
}

// Numbers 7 and 8 of a pattern.
pub fn check_pattern(size: usize, length: u32, edition: u16) -> Result<(), Refusal>
    ensures { result ≡ checked (pattern_refusal size length) 0 edition }
{
    check_schedule(size, edition)?;
    if length == 0 {
        return Err(refuse(8, 0, edition));
    }
    Ok(())
}
