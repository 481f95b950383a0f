// Several bytes of a text as one number, so that they are compared at once.
ghost use Rattle.std.specs.Prelude.{◌≡◌, ◌+◌, ◌≤◌, ◌<◌, length, drop};
ghost use Rattle.compare.specs.Word.{number};

// The number that four bytes of s make from i on, the first the highest.
pub fn half(s: &[u8], i: usize) -> u64
    requires { i + 4 ≤ length s.now }
    ensures { (result ≡ number 0 4 (drop i s.now)) × (result < 4294967296) }
{
    let a = u64::from(s[i]);
    let b = u64::from(s[i + 1]);
    let c = u64::from(s[i + 2]);
    let d = u64::from(s[i + 3]);
    ((a * 256 + b) * 256 + c) * 256 + d
}

// The number that eight bytes make.
pub fn word(s: &[u8], i: usize) -> u64
    requires { i + 8 ≤ length s.now }
    ensures { result ≡ number 0 8 (drop i s.now) }
{
    half(s, i) * 4294967296 + half(s, i + 4)
}
