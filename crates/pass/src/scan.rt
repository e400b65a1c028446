// After the pass: the first transaction whose REF is before an earlier one's command, or whose commands are not as many as are due.
ghost use Rattle.std.specs.Prelude.{◌≡◌, ◌*◌, ◌≤◌, ◌<◌, length};
ghost use Rattle.serves.specs.Check.{agrees, wrong_by, FirstAt, listed_at, number_at};

use faults::counts::bank_agrees;
use records::transaction::Transaction;
use transactions::later::later_at;

// To each bank.
pub fn counts_agree(banks: u16, x: Transaction, y: usize, counts: &[u32; 24576]) -> bool
    requires { (banks ≤ 16) × (y < 256) }
    ensures { result ≡ agrees banks x y (number_at counts.now) }
{
    let mut all = true;
    for b in 0..banks as u8 {
        all = bank_agrees(banks, x, y, b, counts) && all;
    }
    all
}

// `least` is the lowest that the pass found, or the list's length.
pub fn scan(
    banks: u16,
    list: &[u8],
    least: u32,
    counts: &[u32; 24576],
    last: &[u32; 256],
    refs: &[u32; 256],
) -> u32
    requires { (banks ≤ 16) × (8 * least ≤ length list.now) × (least ≤ 256) }
    ensures { FirstAt (wrong_by banks (listed_at list.now) (number_at refs.now) (number_at last.now) (number_at counts.now)) least result }
{
    let mut most: u32 = 0;
    for k in 0..least as usize {
        let x = later_at(list, 8 * k);
        let early = refs[k] < most;
        if early || !counts_agree(banks, x, k, counts) {
            return k as u32;
        }
        most = most.max(last[k]);
    }
    least
}
