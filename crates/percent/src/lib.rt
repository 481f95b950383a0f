//! What a text in print stands for: measured, or told where it is not as a text is shown, and written into a lent buffer.
#![tactic(auto)]

ghost use Rattle.std.specs.Prelude.{◌≡◌, true, ◌<◌, ◌≤◌, length, drop};
ghost use Rattle.print.specs.Unshown.{text_of, unshown};
ghost use Rattle.buffer.specs.Splice.{splice};
ghost use Rattle.percent.specs.Decode.{digit_of, byte_of, measured, is_text, Steps, Decodes};

use print::shown::is_plain;

// The place of a text's first byte that is not as a text is shown.
#[derive(Clone, Copy, Debug, PartialEq, Eq)]
pub struct Fault {
    pub at: usize,
}

// A byte that is shown, and how many bytes show it.
#[derive(Clone, Copy)]
struct Shown {
    byte: u8,
    width: usize,
}

// The number that a capital hexadecimal digit stands for.
#[tactic(auto, using(std::proofs::lemmas::Bool::Decides::nat_tests), unfolding(crate::specs::Decode::digit_of, print::specs::Unshown::digit_value))]
fn digit_value(b: u8) -> Option<u8>
    ensures { result ≡ digit_of b }
{
    match b {
        b'0'..=b'9' => Some(b - b'0'),
        b'A'..=b'F' => Some(b - b'A' + 10),
        _ => None,
    }
}

// The byte that two digits stand for, the higher one first.
fn escaped(h: u8, l: u8) -> Option<u8>
    ensures { result ≡ byte_of h l }
{
    let high = digit_value(h)?;
    let low = digit_value(l)?;
    Some(16 * high + low)
}

// The byte that is shown from a place on.
fn shown_at(t: &[u8], i: usize) -> Option<Shown>
    requires { i < length t.now }
    ensures { Steps (drop i t.now) result }
{
    let b = t[i];
    if is_plain(b) {
        return Some(Shown { byte: b, width: 1 });
    }
    if b != b'%' || t.len() - i < 3 {
        return None;
    }
    let byte = escaped(t[i + 1], t[i + 2])?;
    Some(Shown { byte, width: 3 })
}

// How many bytes a text in print stands for, or where its first fault is.
pub fn measure(t: &[u8]) -> Result<usize, Fault>
    ensures { result ≡ measured (unshown t.now) }
{
    if t.first() != Some(&b'=') {
        return Err(Fault { at: 0 });
    }
    let mut n = 0;
    let mut i = 1;
    // As it is: (d) one byte or three show a byte, so each step says where the next one begins, and a `for` would count the bytes that show.
    while i < t.len() {
        let s = shown_at(t, i).ok_or(Fault { at: i })?;
        n += 1;
        i += s.width;
    }
    Ok(n)
}

// Writes what a text in print without a fault stands for at the start of the buffer.
fn put_text(t: &[u8], out: &mut [u8])
    requires { (is_text (unshown t.now) ≡ true) × (length t.now ≤ length out.old) }
    ensures { out.new ≡ splice out.old 0 (text_of (unshown t.now)) }
{
    let mut end = 0;
    let mut i = 1;
    // As it is: (d) as in `measure`.
    while i < t.len() {
        let Some(s) = shown_at(t, i) else { return };
        end = buffer::put_byte(out, end, s.byte);
        i += s.width;
    }
}

// Writes what a text in print stands for at the start of the buffer, and answers how many bytes it has; where there is a fault, it answers
// the place of the fault and writes nothing.
pub fn decode(t: &[u8], out: &mut [u8]) -> Result<usize, Fault>
    requires { length t.now ≤ length out.old }
    ensures { Decodes (unshown t.now) out.old out.new result }
{
    let n = measure(t)?;
    put_text(t, out);
    Ok(n)
}
