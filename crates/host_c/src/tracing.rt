// A caller's logic analyser trace, straight into the judge.
ghost use Rattle.promises.specs.Admit.{admitted};
ghost use Rattle.promises.specs.Tracing.{capturing};
ghost use Rattle.host.specs.Promises.{Traces};

use verdict_answers::verdict::CaptureAnswer;

#[unsafe(no_mangle)]
pub extern "C" fn skv_judge_capture(
    expected: u16,
    table: &[u8],
    capture: &[u8],
    commands: &mut [u8],
) -> CaptureAnswer
    ensures { Traces (capturing (admitted expected table.now) capture.now commands.old) result commands.new }
{
    host::tracing::skv_judge_capture(expected, table, capture, commands)
}
