// A quick look at names before a spec is asked: how many bytes they have, and eight of them. What is stopped has no row.
#![tactic(auto)]

ghost use Rattle.std.specs.Prelude.{◌≡◌, true, false, ℕ, ◌+◌, ◌*◌, ◌≤◌, ◌<◌, length, get_or};
ghost use Rattle.meaning.specs.Limits.{spec_list_bytes};
ghost use Rattle.parse.specs.Places.{part_at, Within};
ghost use Rattle.matcher.specs.Matching.{MatcherWithin, StarIn};
ghost use Rattle.frames.specs.Frames.{longest_frame};
ghost use Rattle.filter.specs.Filters.{frame_adds, passes, FilterWithin, next_passing, size_filter, alike, no_filter, whole_filter, start_filter, part_filter, forward_filter, reverse_filter};

use frames::LONGEST_FRAME;
use limits::NAME_BYTES;
use matcher::types::{Matcher, Needle, Target};
use parse::types::Side;
use sides::wide;

// A name passes that has from `least` to `most` bytes and, where `worded`, those from `from` on that make the number
// `word`, or else, where `framed`, as many bytes more than `least` as one of the frames of a partial name adds.
#[derive(Clone, Copy)]
pub struct Filter {
    pub least: usize,
    pub most: usize,
    pub worded: bool,
    pub from: usize,
    pub word: u64,
    pub framed: bool,
}

// A filter for how many bytes a name has.
fn size_filter(least: usize, most: usize, framed: bool) -> Filter
    ensures { result ≡ size_filter least most framed }
{
    Filter {
        least,
        most,
        worded: false,
        from: 0,
        word: 0,
        framed,
    }
}

// A filter for how many bytes a name has and, where the `len` bytes that begin at `at` are so many, for the last eight of them.
fn alike(specs: &[u8], at: usize, len: usize, least: usize, most: usize) -> Filter
    requires { at + len ≤ length specs.now }
    ensures { result ≡ alike specs.now at len least most }
{
    if len < 8 {
        return size_filter(least, most, false);
    }
    let from = len - 8;
    let word = compare::word::word(specs, at + from);
    Filter {
        least,
        most,
        worded: true,
        from,
        word,
        framed: false,
    }
}

// Nothing passes.
fn no_filter() -> Filter
    ensures { result ≡ no_filter }
{
    size_filter(1, 0, false)
}

// What is a side as a whole.
fn whole_filter(specs: &[u8], side: Side) -> Filter
    requires { Within (length specs.now) side }
    ensures { result ≡ whole_filter specs.now side }
{
    match side {
        Side::Absent => size_filter(0, NAME_BYTES, false),
        Side::Part(at, len) => alike(specs, at, len, len, len),
        Side::Head => size_filter(4, 4, false),
    }
}

// What begins with a side up to its star, and is not shorter than the rest of it.
fn start_filter(specs: &[u8], side: Side, star: usize) -> Filter
    requires { Within (length specs.now) side × StarIn star side }
    ensures { result ≡ start_filter specs.now side star }
{
    match side {
        Side::Absent => size_filter(0, NAME_BYTES, false),
        Side::Part(at, len) => alike(specs, at, star, len - 1, NAME_BYTES),
        Side::Head => size_filter(0, NAME_BYTES, false),
    }
}

// What may be a candidate of a partial name of n bytes.
fn framed(n: usize) -> Filter
    requires { n ≤ spec_list_bytes }
    ensures { result ≡ size_filter n (n + longest_frame) true }
{
    size_filter(n, n + LONGEST_FRAME, true)
}

// What may be a candidate of a side.
fn part_filter(len: usize, side: Side) -> Filter
    requires { Within len side × (len ≤ spec_list_bytes) }
    ensures { result ≡ part_filter side }
{
    match side {
        Side::Absent => size_filter(0, NAME_BYTES, false),
        Side::Part(_, n) => framed(n),
        Side::Head => framed(4),
    }
}

// The filter of a spec's forward rows.
pub fn forward_filter(specs: &[u8], m: Matcher) -> Filter
    requires { MatcherWithin (length specs.now) m × (length specs.now ≤ spec_list_bytes) }
    ensures { result ≡ forward_filter specs.now m }
{
    let src = m.src;
    let lhs = m.lhs;
    match lhs {
        Needle::Absent => no_filter(),
        Needle::Glob(star) => start_filter(specs, src, star),
        Needle::FullName => whole_filter(specs, src),
        Needle::Object => no_filter(),
        Needle::PartialName => part_filter(specs.len(), src),
    }
}

// The filter of a spec's reverse rows.
pub fn reverse_filter(specs: &[u8], m: Matcher) -> Filter
    requires { MatcherWithin (length specs.now) m × (length specs.now ≤ spec_list_bytes) }
    ensures { result ≡ reverse_filter specs.now m }
{
    let dst = m.dst;
    let rhs = m.rhs;
    match rhs {
        Target::Absent => no_filter(),
        Target::Pattern(star) => start_filter(specs, dst, star),
        Target::Literal(_) => whole_filter(specs, dst),
    }
}

// One of the six frames of a partial name adds so many bytes.
// As it is: (b) by `matches!` the loop over names is no more inlined, and a reverse listing of many specs and names takes two fifths more
// instructions.
fn frame_adds(d: usize) -> bool
    ensures { result ≡ frame_adds d }
{
    match d {
        0 => true,
        5 => true,
        10 => true,
        11 => true,
        13 => true,
        18 => true,
        _ => false,
    }
}

// The name of n bytes that begin at `start` passes a filter.
fn passes(f: Filter, items: &[u8], start: usize, n: usize) -> bool
    requires { FilterWithin f × (start + n ≤ length items.now) }
    ensures { result ≡ passes f (part_at items.now start n) }
{
    if n < f.least {
        return false;
    }
    if f.most < n {
        return false;
    }
    if f.worded {
        return compare::word::word(items, start + f.from) == f.word;
    }
    if f.framed {
        return frame_adds(n - f.least);
    }
    true
}

// The number, `from` or after it, of the first of n names that passes a filter; n where none does.
pub fn next_passing(f: Filter, items: &[u8], places: &[u16], n: usize, from: usize) -> usize
    requires { FilterWithin f × (from ≤ n) × (2 * n ≤ length places.now) × ((k : ℕ) → k < n → get_or places.now (2 * k) 0 + get_or places.now (2 * k + 1) 0 ≤ length items.now) }
    ensures { result ≡ next_passing f items.now places.now n from }
{
    let mut j = from;
    while j < n {
        if passes(f, items, wide(places[2 * j]), wide(places[2 * j + 1])) {
            return j;
        }
        j += 1;
    }
    j
}
