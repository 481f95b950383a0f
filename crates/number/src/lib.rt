// Numbers in groups of seven bits: lowest first, the top bit set while more follow, in the shortest form.
#![tactic(auto)]

ghost use Rattle.std.specs.Prelude.{◌≡◌, ◌<◌, ◌≤◌, length};
ghost use Rattle.meaning.specs.Number.{number_bytes};
ghost use Rattle.buffer.specs.Splice.{RoomFor, Puts};
ghost use Rattle.meaning.specs.Limits.{largest_number};
ghost use Rattle.number.specs.Reading.{found_at, number_at, after_one, after_two};

use limits::NUMBER_GROUPS;

// A number that was read, with the place of what follows it.
#[derive(Clone, Copy, Debug, PartialEq, Eq)]
pub struct Number {
    pub value: usize,
    pub next: usize,
}

// The number that starts at `at`, if one is well formed there. Inlined, since LLVM takes a call after several `?` for a rare one.
#[inline(always)]
pub fn read(s: &[u8], at: usize) -> Option<Number>
    ensures { result ≡ number_at s.now at }
{
    let a = usize::from(*s.get(at)?);
    if a < 128 {
        return Some(Number {
            value: a,
            next: at + 1,
        });
    }
    read_second(s, at + 1, a)
}

// The number whose first group is `a`, read on from its second, at `i`.
fn read_second(s: &[u8], i: usize, a: usize) -> Option<Number>
    requires { (128 ≤ a) × (a < 256) }
    ensures { result ≡ found_at (after_one a) s.now i }
{
    let b = usize::from(*s.get(i)?);
    if b == 0 {
        return None;
    }
    if b < 128 {
        return Some(Number {
            value: a - 128 + b * 128,
            next: i + 1,
        });
    }
    read_third(s, i + 1, a, b)
}

// The number whose first groups are `a` and `b`, read on from its third, at `j`, which is the last.
fn read_third(s: &[u8], j: usize, a: usize, b: usize) -> Option<Number>
    requires { (128 ≤ a) × (a < 256) × (128 ≤ b) × (b < 256) }
    ensures { result ≡ found_at (after_two a b) s.now j }
{
    let c = usize::from(*s.get(j)?);
    if c == 0 || 128 <= c {
        return None;
    }
    Some(Number {
        value: a - 128 + (b - 128 + c * 128) * 128,
        next: j + 1,
    })
}

// Numbers below it take at most two groups.
const TWO_GROUPS: usize = 128 * 128;

// How many bytes `n` takes.
pub fn size(n: usize) -> usize
    requires { n ≤ largest_number }
    ensures { result ≡ length (number_bytes n) }
{
    if n < 128 {
        1
    } else if n < TWO_GROUPS {
        2
    } else {
        NUMBER_GROUPS
    }
}

// `n` written from `at` on; the place after it.
pub fn put(out: &mut [u8], at: usize, n: usize) -> usize
    requires { (n ≤ largest_number) × RoomFor out.old at (number_bytes n) }
    ensures { Puts out.old at (number_bytes n) out.new result }
{
    let mut i = at;
    let mut rest = n;
    // As it is: (d) what is left of the number ends the loop, and a `for` over its bytes would have to measure them first.
    while 128 <= rest {
        out[i] = (128 + rest % 128) as u8;
        rest /= 128;
        i += 1;
    }
    out[i] = rest as u8;
    i + 1
}
