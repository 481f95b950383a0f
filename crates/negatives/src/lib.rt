// The negative specs of a group as flat numbers, and whether one of them matches a name. Port of the negatives in the crate's match_group/mod.rs.
#![tactic(auto)]

ghost use Rattle.std.specs.Prelude.{◌≡◌, cond, [], ◌∷◌, ◌++◌, ℕ, ◌+◌, ◌*◌, ◌<◌, ◌≤◌, length};
ghost use Rattle.meaning.specs.Bytes.{same, present};
ghost use Rattle.meaning.specs.Limits.{spec_list_bytes};
ghost use Rattle.meaning.specs.Spec.{is_negative};
ghost use Rattle.buffer.specs.Splice.{splice};
ghost use Rattle.parse.specs.Places.{mode_meant, part_at, Within, SidesWithin, spec_meant};
ghost use Rattle.negatives.specs.Negatives.{negative_numbers, in_place_of_star, negative_matches, NegativeWithin, negative_from, negative_at, excluded_by};
ghost use Rattle.negatives.specs.Making.{text_negative, side_negative, is_glob, besides, negative_of, negative_four, added_to, PutNegative, Added};

use glob::pieces::{pieces_glob, pieces_same};
use parse::types::{RefSpec, Side};
use sides::wide;

// How many numbers a negative has in a table.
pub const NEGATIVE_NUMBERS: usize = 4;

// What a negative spec looks for, as places in the spec list.
// As it is: (d) `Nothing` is one of several cases; an Option around the others would add a layer to each match, as in `Some(Negative::Head)`.
#[derive(Clone, Copy)]
pub enum Negative {
    // Nothing: it has no source, or beside it a destination that is a pattern where it is none, or the other way.
    Nothing,
    // The name `HEAD`, which the list does not spell.
    Head,
    // The `len` bytes that begin at `at`.
    Literal { at: usize, len: usize },
    // A pattern of `len` bytes that begin at `at`, its star `star` bytes after that.
    Glob { at: usize, len: usize, star: usize },
}

// What the text of `len` bytes that begin at `at` looks for.
fn text_negative(specs: &[u8], at: usize, len: usize) -> Negative
    requires { at + len ≤ length specs.now }
    ensures { result ≡ text_negative specs.now at len }
{
    match text::find(b'*', &specs[at..at + len]) {
        Some(star) => Negative::Glob { at, len, star },
        None => Negative::Literal { at, len },
    }
}

// What a side looks for.
fn side_negative(specs: &[u8], side: Side) -> Negative
    requires { Within (length specs.now) side }
    ensures { result ≡ side_negative specs.now side }
{
    match side {
        Side::Absent => Negative::Nothing,
        Side::Part(at, len) => text_negative(specs, at, len),
        Side::Head => Negative::Head,
    }
}

// It is a pattern.
fn is_glob(n: Negative) -> bool
    ensures { result ≡ is_glob n }
{
    matches!(n, Negative::Glob { .. })
}

// The source n with a destination d that is there: both are patterns or neither, else nothing is matched.
fn besides(n: Negative, d: Negative) -> Negative
    ensures { result ≡ besides n d }
{
    if is_glob(n) == is_glob(d) {
        n
    } else {
        Negative::Nothing
    }
}

// What a spec looks for, taken as a negative.
fn negative_of(specs: &[u8], r: RefSpec) -> Negative
    requires { SidesWithin (length specs.now) r }
    ensures { result ≡ negative_of specs.now r }
{
    let src = r.src;
    let dst = r.dst;
    let n = side_negative(specs, src);
    if dst.is_present() {
        return besides(n, side_negative(specs, dst));
    }
    n
}

// Four numbers are put into a table as those of number k; the number after it.
fn put_numbers(out: &mut [u16], k: usize, kind: usize, at: usize, len: usize, star: usize) -> usize
    requires { (negative_numbers * k + negative_numbers ≤ length out.old) × (kind ≤ 3) × (at ≤ spec_list_bytes) × (len ≤ spec_list_bytes) × (star ≤ spec_list_bytes) }
    ensures { (result ≡ k + 1) × (out.new ≡ splice out.old (negative_numbers * k) (kind ∷ at ∷ len ∷ star ∷ [])) × PutNegative out.old k (negative_from kind at len star) out.new }
{
    let i = NEGATIVE_NUMBERS * k;
    out[i] = kind as u16;
    out[i + 1] = at as u16;
    out[i + 2] = len as u16;
    out[i + 3] = star as u16;
    k + 1
}

// A negative is put into a table as number k; the number after it.
fn put_negative(out: &mut [u16], k: usize, n: Negative) -> usize
    requires { (negative_numbers * k + negative_numbers ≤ length out.old) × NegativeWithin spec_list_bytes n }
    ensures { (result ≡ k + 1) × (out.new ≡ splice out.old (negative_numbers * k) (negative_four n)) × PutNegative out.old k n out.new }
{
    match n {
        Negative::Nothing => put_numbers(out, k, 0, 0, 0, 0),
        Negative::Head => put_numbers(out, k, 1, 0, 0, 0),
        Negative::Literal { at, len } => put_numbers(out, k, 2, at, len, 0),
        Negative::Glob { at, len, star } => put_numbers(out, k, 3, at, len, star),
    }
}

// A spec is added to the first k negatives of a table, if it is one; how many they are then.
pub fn put_if_negative(specs: &[u8], r: RefSpec, k: usize, out: &mut [u16]) -> usize
    requires { SidesWithin (length specs.now) r × (length specs.now ≤ spec_list_bytes) × (negative_numbers * k + negative_numbers ≤ length out.old) }
    ensures { (result ≡ cond (is_negative (mode_meant r.mode)) (k + 1) k) × (out.new ≡ added_to specs.now r out.old k)
        × Added specs.now (spec_meant specs.now r) out.old k out.new result }
{
    let m = r.mode;
    if !m.is_negative() {
        return k;
    }
    let n = negative_of(specs, r);
    put_negative(out, k, n)
}

// The negative that four numbers tell.
fn negative_from(kind: usize, at: usize, len: usize, star: usize) -> Negative
    ensures { result ≡ negative_from kind at len star }
{
    match kind {
        0 => Negative::Nothing,
        1 => Negative::Head,
        2 => Negative::Literal { at, len },
        _ => Negative::Glob { at, len, star },
    }
}

// Negative number k of a table.
fn negative_at(table: &[u16], k: usize) -> Negative
    requires { negative_numbers * k + negative_numbers ≤ length table.now }
    ensures { result ≡ negative_at table.now k }
{
    let i = NEGATIVE_NUMBERS * k;
    negative_from(
        wide(table[i]),
        wide(table[i + 1]),
        wide(table[i + 2]),
        wide(table[i + 3]),
    )
}

// The text of `len` bytes that begin at `at` is the name.
fn literal_matches(specs: &[u8], at: usize, len: usize, name: &[u8]) -> bool
    requires { at + len ≤ length specs.now }
    ensures { result ≡ same (part_at specs.now at len) name.now }
{
    let end = at + len;
    compare::same(&specs[at..end], name)
}

// The pattern of `len` bytes that begin at `at` matches the name.
fn glob_matches(specs: &[u8], at: usize, len: usize, star: usize, name: &[u8]) -> bool
    requires { (at + len ≤ length specs.now) × (star < len) }
    ensures { result ≡ present (in_place_of_star (part_at specs.now at len) star name.now) }
{
    let end = at + len;
    glob::glob(&specs[at..end], star, name).is_some()
}

// A negative matches a name.
fn matches(specs: &[u8], n: Negative, name: &[u8]) -> bool
    requires { NegativeWithin (length specs.now) n }
    ensures { result ≡ negative_matches specs.now name.now n }
{
    match n {
        Negative::Nothing => false,
        Negative::Head => compare::same(b"HEAD", name),
        Negative::Literal { at, len } => literal_matches(specs, at, len, name),
        Negative::Glob { at, len, star } => glob_matches(specs, at, len, star, name),
    }
}

// One of the first `count` negatives of a table matches a name.
pub fn excluded(specs: &[u8], negatives: &[u16], count: usize, name: &[u8]) -> bool
    requires { (negative_numbers * count ≤ length negatives.now) × ((k : ℕ) → k < count → NegativeWithin (length specs.now) (negative_at negatives.now k)) }
    ensures { result ≡ excluded_by specs.now negatives.now count name.now }
{
    for k in 0..count {
        if matches(specs, negative_at(negatives, k), name) {
            return true;
        }
    }
    false
}

// The text of `len` bytes that begin at `at` is the name in three pieces.
fn literal_matches_pieces(specs: &[u8], at: usize, len: usize, a: &[u8], b: &[u8], c: &[u8]) -> bool
    requires { at + len ≤ length specs.now }
    ensures { result ≡ same (part_at specs.now at len) (a.now ++ (b.now ++ c.now)) }
{
    let end = at + len;
    pieces_same(&specs[at..end], a, b, c)
}

// The pattern of `len` bytes that begin at `at` matches it.
fn glob_matches_pieces(
    specs: &[u8],
    at: usize,
    len: usize,
    star: usize,
    a: &[u8],
    b: &[u8],
    c: &[u8],
) -> bool
    requires { (at + len ≤ length specs.now) × (star < len) }
    ensures { result ≡ present (in_place_of_star (part_at specs.now at len) star (a.now ++ (b.now ++ c.now))) }
{
    let end = at + len;
    pieces_glob(&specs[at..end], star, a, b, c)
}

// A negative matches it.
fn matches_pieces(specs: &[u8], n: Negative, a: &[u8], b: &[u8], c: &[u8]) -> bool
    requires { NegativeWithin (length specs.now) n }
    ensures { result ≡ negative_matches specs.now (a.now ++ (b.now ++ c.now)) n }
{
    match n {
        Negative::Nothing => false,
        Negative::Head => pieces_same(b"HEAD", a, b, c),
        Negative::Literal { at, len } => literal_matches_pieces(specs, at, len, a, b, c),
        Negative::Glob { at, len, star } => glob_matches_pieces(specs, at, len, star, a, b, c),
    }
}

// One of the first `count` negatives of a table matches it.
pub fn excluded_pieces(
    specs: &[u8],
    negatives: &[u16],
    count: usize,
    a: &[u8],
    b: &[u8],
    c: &[u8],
) -> bool
    requires { (negative_numbers * count ≤ length negatives.now) × ((k : ℕ) → k < count → NegativeWithin (length specs.now) (negative_at negatives.now k)) }
    ensures { result ≡ excluded_by specs.now negatives.now count (a.now ++ (b.now ++ c.now)) }
{
    for i in 0..count {
        if matches_pieces(specs, negative_at(negatives, i), a, b, c) {
            return true;
        }
    }
    false
}
