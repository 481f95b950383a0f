// Copying into a lent buffer.
#![tactic(auto)]

ghost use Rattle.std.specs.Prelude.{◌≡◌, [], ◌∷◌, ◌+◌, ◌<◌, length};
ghost use Rattle.meaning.specs.Bytes.{lower_byte, lower};
ghost use Rattle.buffer.specs.Splice.{splice, RoomFor, Puts};

mod copy;
pub mod written;

use copy::{put_by_bytes, put_by_eights, put_by_fours};

// Writes src into dst at a place, and answers the place after it.
pub fn put(dst: &mut [u8], at: usize, src: &[u8]) -> usize
    requires { RoomFor dst.old at src.now }
    ensures { Puts dst.old at src.now dst.new result }
{
    let n = src.len();
    if n < 4 {
        return put_by_bytes(dst, at, src);
    }
    if n < 8 {
        return put_by_fours(dst, at, src);
    }
    put_by_eights(dst, at, src)
}

// Writes one byte into dst at a place, and answers the place after it.
pub fn put_byte(dst: &mut [u8], at: usize, b: u8) -> usize
    requires { at < length dst.old }
    ensures { (dst.new ≡ splice dst.old at (b ∷ [])) × (result ≡ at + 1) }
{
    dst[at] = b;
    at + 1
}

// A capital letter in lower case, any other byte itself.
fn lower_byte(b: u8) -> u8
    ensures { result ≡ lower_byte b }
{
    b.to_ascii_lowercase()
}

// Writes src in lower case into dst at a place, and answers the place after it.
pub fn put_lower(dst: &mut [u8], at: usize, src: &[u8]) -> usize
    requires { RoomFor dst.old at src.now }
    ensures { Puts dst.old at (lower src.now) dst.new result }
{
    for (i, b) in src.iter().enumerate() {
        dst[at + i] = lower_byte(*b);
    }
    at + src.len()
}
