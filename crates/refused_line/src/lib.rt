//! What is said of a refused line: its number, the reason in words, and which byte it is about.
#![tactic(auto)]

ghost use Rattle.std.specs.Prelude.{◌≡◌, [], ◌∷◌, ◌++◌, ◌+◌, ◌≤◌, length};
ghost use Rattle.meaning.specs.Limits.{program_bytes};
ghost use Rattle.meaning.specs.Bytes.{bytes};
ghost use Rattle.buffer.specs.Splice.{splice, RoomFor, Puts};
ghost use Rattle.refusal_words.specs.Words.{reason_words};
ghost use Rattle.refused_line.specs.Byte.{counted};
ghost use Rattle.refused_line.specs.Message.{numeral, byte_words, byte_told, line_told, refused_line, message_most};

mod byte;

use buffer::{put, put_byte};
use byte::line_byte;
use print::decimal::put_digits;
use print::shown::capital_digit;
use refusal_words::reason;

// The most digits of a machine's number.
const MOST_DIGITS: usize = 20;

// Room for what is said of a line.
pub const MESSAGE_ROOM: usize = (5 + MOST_DIGITS + 2) + 60 + (7 + MOST_DIGITS + 4 + 17) + 1;

// Writes a number, and answers the place after it.
fn put_number(out: &mut [u8], at: usize, n: usize) -> usize
    requires { RoomFor out.old at (numeral n) }
    ensures { Puts out.old at (numeral n) out.new result }
{
    put_digits(out, at, MOST_DIGITS, n)
}

// Writes a byte in words, and answers the place after them: a blank by its name, what can be seen between two backticks, any other as `0x`
// and two hexadecimal digits.
#[tactic(auto, unfolding(crate::specs::Message::byte_words, crate::specs::Message::byte_itself, crate::specs::Message::hexadecimal))]
fn put_byte_words(out: &mut [u8], at: usize, b: u8) -> usize
    requires { RoomFor out.old at (byte_words b) }
    ensures { Puts out.old at (byte_words b) out.new result }
{
    match b {
        b'\t' => put(out, at, b"a tab"),
        b'\r' => put(out, at, b"a carriage return"),
        b' ' => put(out, at, b"a space"),
        33..=126 => put(out, at, &[b'`', b, b'`']),
        _ => put(
            out,
            at,
            &[b'0', b'x', capital_digit(b / 16), capital_digit(b % 16)],
        ),
    }
}

// Writes what a byte is, and answers the place after it.
fn put_is(out: &mut [u8], at: usize, b: u8) -> usize
    requires { RoomFor out.old at (bytes " is " ++ byte_words b) }
    ensures { Puts out.old at (bytes " is " ++ byte_words b) out.new result }
{
    let i = put(out, at, b" is ");
    put_byte_words(out, i, b)
}

// Writes which byte of a line it is about, if about one, and answers the place after it.
fn put_told(out: &mut [u8], at: usize, line: &[u8], byte: Option<usize>) -> usize
    requires { RoomFor out.old at (byte_told line.now (counted byte)) × (counted byte ≤ length line.now) }
    ensures { Puts out.old at (byte_told line.now (counted byte)) out.new result }
{
    match byte {
        None => at,
        Some(k) => {
            let i = put(out, at, b": byte ");
            let j = put_number(out, i, k + 1);
            put_is(out, j, line[k])
        }
    }
}

// Writes the same with a line feed, and answers the place after it.
fn put_end(out: &mut [u8], at: usize, line: &[u8], byte: Option<usize>) -> usize
    requires { RoomFor out.old at (byte_told line.now (counted byte) ++ (10 ∷ [])) × (counted byte ≤ length line.now) }
    ensures { Puts out.old at (byte_told line.now (counted byte) ++ (10 ∷ [])) out.new result }
{
    let i = put_told(out, at, line, byte);
    put_byte(out, i, b'\n')
}

// Writes the words for a reason, and answers the place after them.
fn put_reason(out: &mut [u8], at: usize, n: u64) -> usize
    requires { RoomFor out.old at (reason_words n) }
    ensures { Puts out.old at (reason_words n) out.new result }
{
    put(out, at, reason(n))
}

// Writes the number of a line, and answers the place after it.
fn put_line(out: &mut [u8], at: usize, k: usize) -> usize
    requires { RoomFor out.old at (line_told k) }
    ensures { Puts out.old at (line_told k) out.new result }
{
    let i = put(out, at, b"line ");
    let j = put_number(out, i, k);
    put(out, j, b": ")
}

// Writes what is said of line number k that is refused for a reason at the start of the buffer, and answers how many bytes it has.
pub fn put_refused(out: &mut [u8], k: usize, n: u64, line: &[u8]) -> usize
    requires { (message_most ≤ length out.old) × (length line.now ≤ program_bytes) }
    ensures { (out.new ≡ splice out.old 0 (refused_line k n line.now)) × (result ≡ length (refused_line k n line.now)) × (result ≤ message_most) }
{
    let byte = line_byte(n, line);
    let i = put_line(out, 0, k);
    let j = put_reason(out, i, n);
    put_end(out, j, line, byte)
}
