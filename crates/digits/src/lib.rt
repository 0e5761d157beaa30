// Numbers of 64 bits in decimal: how long, put into lent bytes, and read a byte at a time.

#![tactic(auto)]

ghost use Rattle.std.specs.Prelude.{◌+◌, ◌≤◌, ◌≡◌, length};
ghost use Rattle.digits.specs.Digits.{digits};
ghost use Rattle.digits.specs.Numerals.{with_digit};
ghost use Rattle.digits.specs.Texts.{Put};

// The mark of bytes that are no number: 2 to the 64th less 1.
pub const WRONG: u64 = 18446744073709551615;

// A number below this one, 10 to the 18th, takes a digit more.
const TENTH: u64 = 1000000000000000000;

// How many digits `n` has.
#[tactic(auto, using(crate::proofs::Value::counted))]
pub fn size_of(n: u64) -> usize
    ensures { result ≡ length (digits n) }
{
    let mut size: usize = 1;
    let mut rest = n;
    // What is left falls by tens, so no range counts it.
    while 10 <= rest {
        rest /= 10;
        size += 1;
    }
    size
}

// The digits of `n` from `at` on; the place past them.
pub fn put_number(out: &mut [u8], at: usize, n: u64) -> usize
    requires { at + length (digits n) ≤ length out.old }
    ensures { Put (digits n) at result out.old out.new }
{
    if n < 10 {
        out[at] = b'0' + n as u8;
        return at + 1;
    }
    let p = put_number(out, at, n / 10);
    out[p] = b'0' + (n % 10) as u8;
    p + 1
}

// The mark `m` of the bytes read so far after one more: 0 says nothing, n + 1 the digits of n, `WRONG` anything else.
#[tactic(auto, unfolding(crate::specs::Numerals::with_digit, crate::specs::Numerals::is_digit))]
pub fn with_digit(m: u64, byte: u8) -> u64
    ensures { result ≡ with_digit m byte }
{
    if !byte.is_ascii_digit() {
        return WRONG;
    }
    let digit = (byte - b'0') as u64;
    match m {
        0 => digit + 1,
        2..=TENTH => (m - 1) * 10 + digit + 1,
        _ => WRONG,
    }
}
