// A caller's logic analyser trace, straight into the judge.
ghost use Rattle.std.specs.Prelude.{◌≡◌};
ghost use Rattle.capture.specs.Answer.{LeavesCapture};
ghost use Rattle.promises.specs.Admit.{admitted};
ghost use Rattle.promises.specs.Tracing.{capturing};

use admission::admit::admit;
use records::refusal::Refusal;
use rules::verdict::Verdict;

// Numbers 1, 2, 10, 7, 11, 5; then the capture as command records from the start of `commands`, and the verdict on them, with the table's edition.
pub fn judge_capture(
    expected: u16,
    table: &[u8],
    capture: &[u8],
    commands: &mut [u8],
) -> Result<(u16, usize, Verdict), Refusal>
    ensures { LeavesCapture (capturing (admitted expected table.now) capture.now commands.old) result commands.new }
{
    match admit(expected, table) {
        Ok(t) => capture::trace::judge_capture(t, capture, commands),
        Err(r) => Err(r),
    }
}
