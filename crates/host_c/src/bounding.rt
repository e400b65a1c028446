// By when must a transaction finish?
ghost use Rattle.std.specs.Prelude.{◌≡◌};
ghost use Rattle.promises.specs.Admit.{admitted};
ghost use Rattle.promises.specs.Bounds.{bounding};
ghost use Rattle.answers.specs.Answers.{of_bound};

use answers::answer::Answer;

#[unsafe(no_mangle)]
pub extern "C" fn skv_bound(expected: u16, table: &[u8], bi: u8, bc: u8) -> Answer
    ensures { result ≡ of_bound (bounding (admitted expected table.now) bi bc) }
{
    host::bounding::skv_bound(expected, table, bi, bc)
}
