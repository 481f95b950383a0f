// Texts: `=`, and then each byte as it is, or as `%` and two digits.
ghost use Rattle.std.specs.Prelude.{◌≡◌, ◌+◌, ◌<◌, ◌≤◌, length};
ghost use Rattle.meaning.specs.Limits.{program_bytes};
ghost use Rattle.meaning.specs.Deliveries.{capital_digit, shown_byte, shown};
ghost use Rattle.buffer.specs.Splice.{splice, RoomFor, Puts};
ghost use Rattle.print.specs.Lines.{printable, coded, shown_most};

use buffer::put_byte;

// A byte that is printed as it is: 33 to 126, but not `%`.
#[tactic(auto, using(std::proofs::lemmas::Bool::Decides::nat_tests))]
pub fn is_plain(b: u8) -> bool
    ensures { result ≡ printable b }
{
    matches!(b, 33..=126) && b != b'%'
}

// A capital hexadecimal digit.
pub fn capital_digit(n: u8) -> u8
    requires { n < 16 }
    ensures { result ≡ capital_digit n }
{
    if n < 10 {
        return b'0' + n;
    }
    b'A' - 10 + n
}

// How many bytes a byte takes.
#[tactic(auto, unfolding(meaning::specs::Deliveries::shown_byte, crate::specs::Lines::coded))]
fn byte_size(b: u8) -> usize
    ensures { (result ≡ length (shown_byte b)) × (result ≤ 3) }
{
    if is_plain(b) {
        return 1;
    }
    3
}

// Writes a byte as `%` and two digits, and answers the place after them.
fn put_coded(out: &mut [u8], at: usize, b: u8) -> usize
    requires { at + 3 ≤ length out.old }
    ensures { (out.new ≡ splice out.old at (coded b)) × (result ≡ at + 3) }
{
    let i = put_byte(out, at, b'%');
    let j = put_byte(out, i, capital_digit(b / 16));
    put_byte(out, j, capital_digit(b % 16))
}

// Writes a byte, and answers the place after it.
#[tactic(auto, unfolding(meaning::specs::Deliveries::shown_byte, crate::specs::Lines::coded))]
fn put_shown_byte(out: &mut [u8], at: usize, b: u8) -> usize
    requires { RoomFor out.old at (shown_byte b) }
    ensures { Puts out.old at (shown_byte b) out.new result }
{
    if is_plain(b) {
        return put_byte(out, at, b);
    }
    put_coded(out, at, b)
}

// How many bytes a text takes.
pub(crate) fn shown_size(t: &[u8]) -> usize
    requires { length t.now ≤ program_bytes }
    ensures { (result ≡ length (shown t.now)) × (result ≤ shown_most) }
{
    let mut size = 1;
    for b in t {
        size += byte_size(*b);
    }
    size
}

// Writes a text, and answers the place after it.
pub(crate) fn put_shown(out: &mut [u8], at: usize, t: &[u8]) -> usize
    requires { RoomFor out.old at (shown t.now) }
    ensures { Puts out.old at (shown t.now) out.new result }
{
    let mut end = put_byte(out, at, b'=');
    for b in t {
        end = put_shown_byte(out, end, *b);
    }
    end
}
