// The parts of a row's ends: what a match makes, as places.
ghost use Rattle.std.specs.Prelude.{◌≡◌, suc, ◌≤◌, length, take, drop};
ghost use Rattle.meaning.specs.Limits.{name_bytes};
ghost use Rattle.meaning.specs.Match.{capture};
ghost use Rattle.glob.specs.Captures.{capture_meant, CaptureWithin};
ghost use Rattle.parse.specs.Places.{Within};
ghost use Rattle.refspec.specs.Instructions.{side_text};
ghost use Rattle.matcher.specs.Matching.{StarIn, MatcherWithin, needle_meant};
ghost use Rattle.match_one.specs.Answers.{whole_hit, hit_meant, hit_by, takes, filled_place, spelt_ends, completed_places, caught_places};
ghost use Rattle.match_one.specs.Known.{caught_len};

use glob::{Captured, glob};
use matcher::types::{Ends, Filled, Lead, Matcher, Needle, RowText, Target};
use parse::types::Side;
use refspec::side::text_of;

// A pattern with a part of a name in place of its star; only a part of the spec list has one.
pub(crate) fn filled(specs: &[u8], side: Side, star: usize, c: Captured) -> RowText
    requires { Within (length specs.now) side × StarIn star side }
    ensures { result ≡ filled_place side star c.from c.len }
{
    match side {
        Side::Absent | Side::Head => RowText::Absent,
        Side::Part(at, n) => RowText::Filled(Filled {
            start: at,
            start_len: star,
            from: c.from,
            len: c.len,
            end: at + star + 1,
            end_len: n - star - 1,
        }),
    }
}

// The ends of a row whose source has no capture: a literal destination is completed.
pub(crate) fn completed(m: Matcher, source: RowText) -> Option<Ends>
    ensures { result ≡ completed_places source m.dst m.rhs }
{
    match m.rhs {
        Target::Absent => Some(Ends {
            source,
            destination: RowText::Absent,
        }),
        Target::Pattern(_) => None,
        Target::Literal(lead) => Some(Ends {
            source,
            destination: RowText::Led(lead, m.dst),
        }),
    }
}

// The ends of a name that a literal destination is: nothing of the source is completed.
pub(crate) fn as_spelt(m: Matcher) -> Ends
    ensures { result ≡ spelt_ends m.src }
{
    Ends {
        source: RowText::Led(Lead::AsIs, m.src),
        destination: RowText::Name,
    }
}

// The ends of a name that was matched with a capture, which takes the place of the destination's star.
pub(crate) fn caught(specs: &[u8], m: Matcher, c: Captured) -> Option<Ends>
    requires { MatcherWithin (length specs.now) m }
    ensures { result ≡ caught_places m.dst m.rhs c.from c.len }
{
    match m.rhs {
        Target::Absent => Some(Ends {
            source: RowText::Name,
            destination: RowText::Absent,
        }),
        Target::Pattern(star) => Some(Ends {
            source: RowText::Name,
            destination: filled(specs, m.dst, star, c),
        }),
        Target::Literal(_) => None,
    }
}

// What a name has in place of the star of a side.
pub(crate) fn side_glob(specs: &[u8], side: Side, star: usize, name: &[u8]) -> Option<Captured>
    requires { Within (length specs.now) side × StarIn star side }
    ensures { (capture_meant name.now result ≡ capture (take star (side_text specs.now side)) (drop (suc star) (side_text specs.now side)) name.now)
        × CaptureWithin (length name.now) result }
{
    glob(text_of(specs, b"HEAD", side), star, name)
}

// What is caught of a name that is matched as a whole, if it is: nothing of it.
pub(crate) fn whole_if(matched: bool) -> Option<Captured>
    ensures { result ≡ whole_hit matched }
{
    if matched {
        Some(Captured { from: 0, len: 0 })
    } else {
        None
    }
}

// What the source of a spec catches of a name, if it matches; an object id matches no name.
pub(crate) fn source_hit(specs: &[u8], m: Matcher, name: &[u8]) -> Option<Captured>
    requires { MatcherWithin (length specs.now) m }
    ensures { (hit_meant name.now m.lhs result ≡ hit_by (needle_meant (side_text specs.now m.src) m.lhs) name.now) × CaptureWithin (length name.now) result }
{
    match m.lhs {
        Needle::Absent | Needle::Object => None,
        Needle::Glob(star) => side_glob(specs, m.src, star, name),
        Needle::FullName => whole_if(compare::same(text_of(specs, b"HEAD", m.src), name)),
        Needle::PartialName => whole_if(frames::any_candidate(
            text_of(specs, b"HEAD", m.src),
            name,
        )),
    }
}

// The destination takes what the source catches: a pattern a part of the name, a literal nothing, and where there is none all is taken.
pub(crate) fn takes(m: Matcher) -> bool
    ensures { result ≡ takes m.lhs m.rhs }
{
    match m.rhs {
        Target::Absent => true,
        Target::Pattern(_) => matches!(m.lhs, Needle::Glob(_)),
        Target::Literal(_) => !matches!(m.lhs, Needle::Glob(_)),
    }
}

// How many bytes a name of n bytes has in place of the star of a side that it is known to match: what is more than the side has.
pub(crate) fn caught_len(side: Side, n: usize) -> Option<usize>
    requires { n ≤ name_bytes }
    ensures { result ≡ caught_len side n }
{
    match side {
        Side::Absent | Side::Head => None,
        Side::Part(_, size) => (n + 1).checked_sub(size),
    }
}
