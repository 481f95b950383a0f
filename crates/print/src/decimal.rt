// Decimal numbers.
ghost use Rattle.std.specs.Prelude.{◌≡◌, ◌+◌, ◌≤◌, ◌%◌, length};
ghost use Rattle.meaning.specs.Limits.{decimal_digits};
ghost use Rattle.meaning.specs.Deliveries.{digits, decimal};
ghost use Rattle.buffer.specs.Splice.{RoomFor, Puts};

use buffer::put_byte;
use limits::DECIMAL_DIGITS;

// The last digit of a number.
fn last_digit(n: usize) -> u8
    ensures { result ≡ 48 + n % 10 }
{
    (48 + n % 10) as u8
}

// How many digits a number has, k of them at most.
fn digits_size(k: usize, n: usize) -> usize
    ensures { (result ≡ length (digits k n)) × (result ≤ k) }
{
    if k == 0 {
        return 0;
    }
    if n < 10 {
        return 1;
    }
    digits_size(k - 1, n / 10) + 1
}

// How many digits a number has.
#[tactic(auto, unfolding(meaning::specs::Deliveries::decimal))]
pub(crate) fn decimal_size(n: usize) -> usize
    ensures { (result ≡ length (decimal n)) × (result ≤ decimal_digits) }
{
    digits_size(DECIMAL_DIGITS, n)
}

// Writes the digits of a number, k of them at most, and answers the place after them.
pub fn put_digits(out: &mut [u8], at: usize, k: usize, n: usize) -> usize
    requires { RoomFor out.old at (digits k n) }
    ensures { Puts out.old at (digits k n) out.new result }
{
    if k == 0 {
        return at;
    }
    if n < 10 {
        return put_byte(out, at, last_digit(n));
    }
    let i = put_digits(out, at, k - 1, n / 10);
    put_byte(out, i, last_digit(n))
}

// Writes a number, and answers the place after it.
#[tactic(auto, unfolding(meaning::specs::Deliveries::decimal))]
pub(crate) fn put_decimal(out: &mut [u8], at: usize, n: usize) -> usize
    requires { RoomFor out.old at (decimal n) }
    ensures { Puts out.old at (decimal n) out.new result }
{
    put_digits(out, at, DECIMAL_DIGITS, n)
}
