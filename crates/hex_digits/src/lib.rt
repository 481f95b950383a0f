// Hexadecimal digits, and object ids.
#![tactic(auto)]

ghost use Rattle.std.specs.Prelude.{◌≡◌};
ghost use Rattle.meaning.specs.Bytes.{every, hex_digit, lower_hex_digit, object_id};

use limits::ID_DIGITS;

// Every byte of s is a hexadecimal digit.
pub fn all_hex(s: &[u8]) -> bool
    ensures { result ≡ every hex_digit s.now }
{
    s.iter().all(|b| b.is_ascii_hexdigit())
}

// A lower-case hexadecimal digit.
fn lower_hex_digit(b: u8) -> bool
    ensures { result ≡ lower_hex_digit b }
{
    matches!(b, b'0'..=b'9' | b'a'..=b'f')
}

// Every byte of s is a lower-case hexadecimal digit.
pub fn all_lower_hex(s: &[u8]) -> bool
    ensures { result ≡ every lower_hex_digit s.now }
{
    s.iter().all(|b| lower_hex_digit(*b))
}

// s is an object id: forty hexadecimal digits of either case.
pub fn object_id(s: &[u8]) -> bool
    ensures { result ≡ object_id s.now }
{
    s.len() == ID_DIGITS && all_hex(s)
}
