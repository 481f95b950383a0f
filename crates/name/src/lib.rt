// The rules of git-check-ref-format with --allow-onelevel, as the manual numbers them: which bytes a name has, and what follows each.
#![tactic(auto)]

ghost use Rattle.std.specs.Prelude.{◌≡◌, true, not, ◌+◌, ◌<◌, ◌≤◌, length, get_or, drop};
ghost use Rattle.meaning.specs.Bytes.{◌and◌};
ghost use Rattle.meaning.specs.Names.{not_at, name_passes, side_passes};
ghost use Rattle.name.specs.Rules.{name_byte, rest_of_lock, after_dot, after_slash, after_at_sign, stands, standing, plain, fits, fitting, kind_of};

// What a text is by the rules: a name, a pattern with one star, or neither.
#[derive(Clone, Copy, PartialEq, Eq)]
pub enum NameKind {
    Name,
    Pattern,
    Neither,
}

// 4, 5 and 10: a byte that no name has.
fn forbids(b: u8) -> bool
    ensures { result ≡ not (name_byte b) }
{
    matches!(
        b,
        0..=b' ' | b'*' | b':' | b'?' | b'[' | b'\\' | b'^' | b'~' | 127
    )
}

// 1: what makes a part end with `.lock`, after the dot.
fn rest_of_lock(s: &[u8]) -> bool
    ensures { result ≡ rest_of_lock s.now }
{
    compare::same(s, b"lock") || compare::begins(b"lock/", s)
}

// 1, 3 and 7: s may follow a dot.
fn after_dot(s: &[u8]) -> bool
    ensures { result ≡ after_dot s.now }
{
    match s {
        [] | [b'.', ..] => false,
        _ => !rest_of_lock(s),
    }
}

// 1 and 6: s may follow a slash.
fn after_slash(s: &[u8]) -> bool
    ensures { result ≡ after_slash s.now }
{
    !matches!(s, [] | [b'/' | b'.', ..])
}

// 8: s may follow an `@`.
fn after_at(s: &[u8]) -> bool
    ensures { result ≡ after_at_sign s.now }
{
    !matches!(s, [b'{', ..])
}

// A name may have the byte number i, and before what follows it. It is asked in each turn of a loop; a call there takes 6 percent more
// instructions to read specs.
#[inline(always)]
fn stands(s: &[u8], i: usize) -> bool
    requires { i < length s.now }
    ensures { result ≡ stands (get_or s.now i 0) (drop (i + 1) s.now) }
{
    match s[i] {
        b'0'..=b'9' => true,
        b'.' => after_dot(&s[i + 1..]),
        b'/' => after_slash(&s[i + 1..]),
        b'@' => after_at(&s[i + 1..]),
        b => !forbids(b),
    }
}

// The first place from `from` on whose byte is no small letter. Most are, and may stand anywhere, so that few are asked the rules.
fn past_letters(s: &[u8], from: usize) -> usize
    requires { from ≤ length s.now }
    ensures { (result + standing (drop result s.now) ≡ from + standing (drop from s.now)) × (from ≤ result) × (result ≤ length s.now) }
{
    for i in from..s.len() {
        if !s[i].is_ascii_lowercase() {
            return i;
        }
    }
    s.len()
}

// The place of the first byte that does not stand, or the length.
// As it is: (b) a loop with a step of its own, since one `for` that asks letters first takes 7 percent more instructions to read specs.
fn past_standing(s: &[u8]) -> usize
    ensures { (result ≡ standing s.now) × (result ≤ length s.now) }
{
    let mut i = past_letters(s, 0);
    while i < s.len() {
        if !stands(s, i) {
            return i;
        }
        i = past_letters(s, i + 1);
    }
    i
}

// A letter, a digit, a hyphen or a slash.
fn plain(b: u8) -> bool
    ensures { result ≡ plain b }
{
    b.is_ascii_alphanumeric() | (b == b'-') | (b == b'/')
}

// b is plain, and stands before whatever begins with c: a slash before neither a dot nor a slash.
fn fits(b: u8, c: u8) -> bool
    ensures { result ≡ fits b c }
{
    plain(b) & !((b == b'/') & ((b'.' <= c) & (c <= b'/')))
}

// N bytes from i on fit, each before the next. All are asked without a branch, so that the compiler asks them at once.
fn fit<const N: usize>(s: &[u8], i: usize) -> bool
    requires { i + N < length s.now }
    ensures { result ≡ fitting N (drop i s.now) }
{
    let mut all = true;
    for k in 0..N {
        all &= fits(s[i + k], s[i + k + 1]);
    }
    all
}

// The first m bytes fit, of which there are N at least: the last N of them, and each N before.
fn fit_by<const N: usize>(s: &[u8], m: usize) -> bool
    requires { (1 ≤ N) × (N ≤ m) × (m < length s.now) }
    ensures { result ≡ true → fitting m s.now ≡ true }
{
    let last = m - N;
    if !fit::<N>(s, last) {
        return false;
    }
    for i in (0..last).step_by(N) {
        if !fit::<N>(s, i) {
            return false;
        }
    }
    true
}

// The first m bytes fit, of which there are eight at least.
fn all_fit(s: &[u8], m: usize) -> bool
    requires { (8 ≤ m) × (m < length s.now) }
    ensures { result ≡ true → fitting m s.now ≡ true }
{
    if m < 16 {
        fit_by::<8>(s, m)
    } else {
        fit_by::<16>(s, m)
    }
}

// 1, 6 and 9: begins as what follows a slash, and is not `@` alone.
fn opens(s: &[u8]) -> bool
    ensures { result ≡ (after_slash s.now and not_at s.now) }
{
    after_slash(s) && !compare::same(s, b"@")
}

// A pattern, or a name, passes: the rules with each star read as the letter a. No rule but 5 names a star or an a, so that the others
// are asked of the text as it stands.
pub fn pattern(s: &[u8]) -> bool
    ensures { result ≡ side_passes s.now }
{
    if !opens(s) {
        return false;
    }
    for i in 0..s.len() {
        if s[i] != b'*' && !stands(s, i) {
            return false;
        }
    }
    true
}

// A name passes, of one part or more: all its bytes stand, and no star does.
pub fn name_partial(s: &[u8]) -> bool
    ensures { result ≡ name_passes s.now }
{
    opens(s) && past_standing(s) == s.len()
}

// Which of the two a text is, byte by byte.
fn kind_by_bytes(s: &[u8]) -> NameKind
    ensures { result ≡ kind_of s.now }
{
    if !opens(s) {
        return NameKind::Neither;
    }
    let i = past_standing(s);
    if i == s.len() {
        return NameKind::Name;
    }
    let rest = &s[i + 1..];
    if s[i] == b'*' && past_standing(rest) == rest.len() {
        NameKind::Pattern
    } else {
        NameKind::Neither
    }
}

// Which of the two a text is, in one look. Most are of plain bytes, with a star at the end or none.
pub fn kind(s: &[u8]) -> NameKind
    ensures { result ≡ kind_of s.now }
{
    if 8 < s.len() {
        let last = s.len() - 1;
        if s[0] != b'/' && all_fit(s, last) {
            if s[last] == b'*' {
                return NameKind::Pattern;
            }
            if fits(s[last], b'/') {
                return NameKind::Name;
            }
        }
    }
    kind_by_bytes(s)
}
