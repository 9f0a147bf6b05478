// Whole numbers in decimal, written into a space that the caller lends.
#![tactic(auto)]

ghost use Rattle.std.specs.Prelude.{◌≡◌, ℕ, ◌+◌, ◌≤◌, List, length, decimal};
ghost use Rattle.std.specs.Fmt.{signed_decimal};
ghost use Rattle.text.specs.Space.{written, Placed};
ghost use Rattle.text.specs.Signs.{with_sign};

use refusal::Refusal;

/// A whole number that is told in decimal.
pub trait Decimal: Copy {
    // its text as bytes: a minus where it is negative, and its digits
    ghost text: { Self → List ℕ };

    /// Whether it is negative, and the number that its digits tell: a signed number of 64 bits would not hold every `u64`.
    fn parts(self) -> (bool, u64)
        ensures text { with_sign result.0 result.1 ≡ text self }
        ensures bound { length (text self) ≤ 20 };
}

impl Decimal for u64 {
    ghost text = { decimal };

    #[tactic(auto, using(crate::proofs::Places::few_digits))]
    fn parts(self) -> (bool, u64) {
        (false, self)
    }
}

impl Decimal for usize {
    ghost text = { decimal };

    fn parts(self) -> (bool, u64) {
        // `u64` is not `From<usize>`
        (self as u64).parts()
    }
}

impl Decimal for u8 {
    ghost text = { decimal };

    fn parts(self) -> (bool, u64) {
        u64::from(self).parts()
    }
}

impl Decimal for i64 {
    ghost text = { signed_decimal };

    fn parts(self) -> (bool, u64) {
        (self < 0, self.unsigned_abs())
    }
}

/// How many bytes the number takes.
pub fn width<N: Decimal>(n: N) -> usize
    ensures value { result ≡ length (N.text n) }
    ensures bound { result ≤ 20 }
{
    let (minus, size) = n.parts();
    digit_count(size) + usize::from(minus)
}

/// Writes the number from the place `at` on; returns the place behind it. The space stays the caller's, so it and the place are no struct.
/// Too short a space is refused and left as it was.
pub fn put<N: Decimal>(n: N, space: &mut [u8], at: usize) -> Result<usize, Refusal>
    ensures { Placed (N.text n) space.old at result space.new }
{
    if at > space.len() || space.len() - at < width(n) {
        return Err(Refusal::ShortSpace);
    }
    let (minus, size) = n.parts();
    if minus {
        space[at] = b'-';
        return Ok(write_digits(size, space, at + 1));
    }
    Ok(write_digits(size, space, at))
}

// How many digits the number has.
#[tactic(auto, using(crate::proofs::Places::length_one, crate::proofs::Places::length_more, crate::proofs::Places::few_digits))]
fn digit_count(n: u64) -> usize
    ensures { result ≡ length (decimal n) }
{
    if n < 10 { 1 } else { digit_count(n / 10) + 1 }
}

// Writes the digits of the number from `at` on, where there is room for them.
#[tactic(auto, using(crate::proofs::Places::length_one, crate::proofs::Places::length_more, crate::proofs::Places::written_one, crate::proofs::Places::written_byte, std::proofs::lemmas::Fmt::decimal_digit, std::proofs::lemmas::Fmt::decimal_step))]
fn write_digits(n: u64, space: &mut [u8], at: usize) -> usize
    requires { at + length (decimal n) ≤ length space.old }
    ensures end { result ≡ at + length (decimal n) }
    ensures after { space.new ≡ written space.old at (decimal n) }
{
    // a remainder fits a byte: `try_from` would owe an answer for numbers that do not come
    let digit = (n % 10) as u8 + b'0';
    if n < 10 {
        space[at] = digit;
        return at + 1;
    }
    let last = write_digits(n / 10, space, at);
    space[last] = digit;
    last + 1
}
