// The matchers of a group as flat numbers, ten for each, so that they can be lent without copying.
// A matcher has 80 bytes, and its ten numbers have 20. Kinds are made numbers, and told again, in this file alone.
#![tactic(auto)]

ghost use Rattle.std.specs.Prelude.{◌≡◌, [], ◌∷◌, ◌+◌, ◌*◌, ◌≤◌, length, get_or};
ghost use Rattle.meaning.specs.Limits.{spec_list_bytes};
ghost use Rattle.buffer.specs.Splice.{splice};
ghost use Rattle.parse.specs.Places.{Within};
ghost use Rattle.matcher.specs.Matching.{MatcherWithin};
ghost use Rattle.matcher.specs.Sides.{NeedleStar, TargetStar};
ghost use Rattle.sides.specs.Numbers.{side_from};
ghost use Rattle.sides.specs.Sides.{side_of};
ghost use Rattle.matcher_table.specs.Numbers.{matcher_numbers, needle_from, lead_from, target_from, matcher_at, PutMatcher, no_matcher, needle_kind, needle_star, lead_kind, target_kind, target_number, half_numbers};

use matcher::types::{Lead, Matcher, Needle, Target};
use parse::types::Side;
use sides::{SideNumbers, narrow, wide};

// How many numbers a matcher has in a table.
pub const MATCHER_NUMBERS: usize = 10;

// Which needle it is.
fn needle_kind(lhs: Needle) -> u16
    ensures { result ≡ needle_kind lhs }
{
    match lhs {
        Needle::Absent => 0,
        Needle::Glob(_) => 1,
        Needle::FullName => 2,
        Needle::Object => 3,
        Needle::PartialName => 4,
    }
}

// Where the star of a needle stands.
fn needle_star(lhs: Needle) -> u16
    requires { NeedleStar spec_list_bytes lhs }
    ensures { result ≡ needle_star lhs }
{
    match lhs {
        Needle::Absent => 0,
        Needle::Glob(star) => narrow(star),
        Needle::FullName => 0,
        Needle::Object => 0,
        Needle::PartialName => 0,
    }
}

// Which lead it is.
fn lead_kind(lead: Lead) -> u16
    ensures { result ≡ lead_kind lead }
{
    match lead {
        Lead::AsIs => 0,
        Lead::Refs => 1,
        Lead::Heads => 2,
        Lead::HeadsDigits => 3,
        Lead::Digits => 4,
    }
}

// Which target it is.
fn target_kind(rhs: Target) -> u16
    ensures { result ≡ target_kind rhs }
{
    match rhs {
        Target::Absent => 0,
        Target::Pattern(_) => 1,
        Target::Literal(_) => 2,
    }
}

// Where the star of a target stands, or how it is led.
fn target_number(rhs: Target) -> u16
    requires { TargetStar spec_list_bytes rhs }
    ensures { result ≡ target_number rhs }
{
    match rhs {
        Target::Absent => 0,
        Target::Pattern(star) => narrow(star),
        Target::Literal(lead) => lead_kind(lead),
    }
}

// Five numbers are put into a table from i on.
fn put_five(table: &mut [u16], i: usize, a: u16, b: u16, c: u16, d: u16, e: u16)
    requires { i + 5 ≤ length table.old }
    ensures { table.new ≡ splice table.old i (a ∷ b ∷ c ∷ d ∷ e ∷ []) }
{
    table[i] = a;
    table[i + 1] = b;
    table[i + 2] = c;
    table[i + 3] = d;
    table[i + 4] = e;
}

// The five numbers of one side are put into a table from i on: the side, its kind and one number more.
fn put_half(table: &mut [u16], i: usize, side: Side, kind: u16, number: u16)
    requires { (i + 5 ≤ length table.old) × Within spec_list_bytes side }
    ensures { table.new ≡ splice table.old i (half_numbers side kind number) }
{
    let n = SideNumbers::of(side);
    put_five(table, i, n.kind, n.at, n.len, kind, number);
}

// A matcher is put into a table as number k.
pub fn put_matcher(table: &mut [u16], k: usize, m: Matcher)
    requires { MatcherWithin spec_list_bytes m × (matcher_numbers * k + matcher_numbers ≤ length table.old) }
    ensures { PutMatcher table.old k m table.new }
{
    let i = MATCHER_NUMBERS * k;
    put_half(table, i, m.src, needle_kind(m.lhs), needle_star(m.lhs));
    put_half(
        table,
        i + 5,
        m.dst,
        target_kind(m.rhs),
        target_number(m.rhs),
    );
}

// What two numbers tell that a source looks for.
fn needle_from(kind: u16, star: usize) -> Needle
    ensures { result ≡ needle_from kind star }
{
    match kind {
        0 => Needle::Absent,
        1 => Needle::Glob(star),
        2 => Needle::FullName,
        3 => Needle::Object,
        _ => Needle::PartialName,
    }
}

// The lead that a number tells.
fn lead_from(n: usize) -> Lead
    ensures { result ≡ lead_from n }
{
    match n {
        0 => Lead::AsIs,
        1 => Lead::Refs,
        2 => Lead::Heads,
        3 => Lead::HeadsDigits,
        _ => Lead::Digits,
    }
}

// What two numbers tell of a destination.
fn target_from(kind: u16, n: usize) -> Target
    ensures { result ≡ target_from kind n }
{
    match kind {
        0 => Target::Absent,
        1 => Target::Pattern(n),
        _ => Target::Literal(lead_from(n)),
    }
}

// The numbers of a side that stand in a table from i on.
fn numbers_at(table: &[u16], i: usize) -> SideNumbers
    requires { i + 3 ≤ length table.now }
    ensures { side_of result ≡ side_from (get_or table.now i 0) (get_or table.now (i + 1) 0) (get_or table.now (i + 2) 0) }
{
    SideNumbers {
        kind: table[i],
        at: table[i + 1],
        len: table[i + 2],
    }
}

// Matcher number k of a table.
pub fn matcher_at(table: &[u16], k: usize) -> Matcher
    requires { matcher_numbers * k + matcher_numbers ≤ length table.now }
    ensures { result ≡ matcher_at table.now k }
{
    let i = MATCHER_NUMBERS * k;
    let src = numbers_at(table, i).side();
    let lhs = needle_from(table[i + 3], wide(table[i + 4]));
    let dst = numbers_at(table, i + 5).side();
    let rhs = target_from(table[i + 8], wide(table[i + 9]));
    Matcher { src, lhs, dst, rhs }
}

// The matcher of a spec that gives no rows.
pub fn no_matcher() -> Matcher
    ensures { result ≡ no_matcher }
{
    Matcher {
        src: Side::Absent,
        lhs: Needle::Absent,
        dst: Side::Absent,
        rhs: Target::Absent,
    }
}
