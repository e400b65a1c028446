// Text in a lent buffer: a byte, a word, a number in decimal, each put at a place; each answers the place behind it. No word of the desk stands
// here.
#![tactic(auto)]

ghost use Rattle.std.specs.Prelude.{◌≡◌, ◌+◌, ◌<◌, ◌≤◌, length, [], ◌∷◌, ◌++◌};
ghost use Rattle.text.specs.Decimal.{decimal};
ghost use Rattle.text.specs.Puts.{Puts};

pub fn put_byte(out: &mut [u8], at: usize, x: u8) -> usize
    requires { at < length out.old }
    ensures { Puts (x ∷ []) at result out.old out.new }
{
    out[at] = x;
    at + 1
}

pub fn put_word(out: &mut [u8], at: usize, word: &[u8]) -> usize
    requires { at + length word.now ≤ length out.old }
    ensures { Puts word.now at result out.old out.new }
{
    let end = at + word.len();
    out[at..end].copy_from_slice(word);
    end
}

// The last digit goes behind the digits of the tenth part.
pub fn put_number(out: &mut [u8], at: usize, n: u64) -> usize
    requires { at + length (decimal n) ≤ length out.old }
    ensures { Puts (decimal n) at result out.old out.new }
{
    if n < 10 {
        put_byte(out, at, digit(n))
    } else {
        let next = put_number(out, at, n / 10);
        put_byte(out, next, digit(n % 10))
    }
}

// A number and the byte that ends it.
pub fn put_number_then(out: &mut [u8], at: usize, n: u64, end: u8) -> usize
    requires { at + length (decimal n ++ (end ∷ [])) ≤ length out.old }
    ensures { Puts (decimal n ++ (end ∷ [])) at result out.old out.new }
{
    let next = put_number(out, at, n);
    put_byte(out, next, end)
}

fn digit(d: u64) -> u8
    requires { d < 10 }
    ensures { result ≡ 48 + d }
{
    48 + d as u8
}
