// Two texts: the one begins with the other, ends with it, or is it. Several bytes are compared at once.
#![tactic(auto)]

ghost use Rattle.std.specs.Prelude.{◌≡◌, ◌+◌, ◌<◌, ◌≤◌, length, drop};
ghost use Rattle.meaning.specs.Bytes.{◌and◌, same, begins, ends};

pub mod order;
pub mod word;

use word::{half, word};

// s begins with p, which is no longer, byte by byte.
fn begins_by_bytes(p: &[u8], s: &[u8]) -> bool
    requires { length p.now ≤ length s.now }
    ensures { result ≡ begins p.now s.now }
{
    for i in 0..p.len() {
        if s[i] != p[i] {
            return false;
        }
    }
    true
}

// Of s and p, the four bytes from i on are the same.
fn four_agree(p: &[u8], s: &[u8], i: usize) -> bool
    requires { (i + 4 ≤ length s.now) × (i + 4 ≤ length p.now) }
    ensures { begins (drop i p.now) (drop i s.now) ≡ (result and begins (drop (i + 4) p.now) (drop (i + 4) s.now)) }
{
    half(s, i) == half(p, i)
}

// s begins with p, which has four bytes to seven: the last four decide with the first four.
fn begins_by_fours(p: &[u8], s: &[u8]) -> bool
    requires { (4 ≤ length p.now) × (length p.now < 8) × (length p.now ≤ length s.now) }
    ensures { result ≡ begins p.now s.now }
{
    if !four_agree(p, s, p.len() - 4) {
        return false;
    }
    four_agree(p, s, 0)
}

// Of s and p, the eight bytes from i on are the same.
fn eight_agree(p: &[u8], s: &[u8], i: usize) -> bool
    requires { (i + 8 ≤ length s.now) × (i + 8 ≤ length p.now) }
    ensures { begins (drop i p.now) (drop i s.now) ≡ (result and begins (drop (i + 8) p.now) (drop (i + 8) s.now)) }
{
    word(s, i) == word(p, i)
}

// s begins with p, which has eight bytes or more: the last eight, where names that begin alike differ, decide with each eight before.
fn begins_by_eights(p: &[u8], s: &[u8]) -> bool
    requires { (8 ≤ length p.now) × (length p.now ≤ length s.now) }
    ensures { result ≡ begins p.now s.now }
{
    let last = p.len() - 8;
    if !eight_agree(p, s, last) {
        return false;
    }
    for i in (0..last).step_by(8) {
        if !eight_agree(p, s, i) {
            return false;
        }
    }
    true
}

// s begins with p.
pub fn begins(p: &[u8], s: &[u8]) -> bool
    ensures { result ≡ begins p.now s.now }
{
    let n = p.len();
    if s.len() < n {
        return false;
    }
    if n < 4 {
        return begins_by_bytes(p, s);
    }
    if n < 8 {
        return begins_by_fours(p, s);
    }
    begins_by_eights(p, s)
}

// s is p.
pub fn same(s: &[u8], p: &[u8]) -> bool
    ensures { result ≡ same s.now p.now }
{
    if s.len() != p.len() {
        return false;
    }
    begins(p, s)
}

// s ends with p, which mostly has no bytes: most patterns end with their star.
pub fn ends(p: &[u8], s: &[u8]) -> bool
    ensures { result ≡ ends p.now s.now }
{
    if p.is_empty() {
        return true;
    }
    if s.len() < p.len() {
        return false;
    }
    let at = s.len() - p.len();
    begins(p, &s[at..])
}
