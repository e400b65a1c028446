// A caller's logic analyser trace, straight into the judge.
ghost use Rattle.rules.specs.State.{Held};
ghost use Rattle.capture.specs.Answer.{captured, LeavesCapture};

use crate::answer::check_capture;
use crate::write::write_commands;
use judge::schedule::verdict_on;
use records::refusal::Refusal;
use records::table::Table;
use rules::verdict::Verdict;

// The table is accepted. Numbers 7, 11, 5; then the commands are written and judged.
pub fn judge_capture(
    t: Table,
    capture: &[u8],
    commands: &mut [u8],
) -> Result<(u16, usize, Verdict), Refusal>
    requires { Held t }
    ensures { LeavesCapture (captured t capture.now commands.old) result commands.new }
{
    let count = check_capture(capture, commands.len(), t.edition)?;
    write_commands(capture, commands);
    let bytes = 8 * count;
    let v = verdict_on(t, &commands[..bytes]);
    Ok((t.edition, count, v))
}
