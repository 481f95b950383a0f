// What one spec makes of one name: what it catches of the name, and the ends of the row that come of that, forward, in reverse and of an
// object id. The ends of a name that is known to be matched come of how many bytes it has: nothing is compared again. Port of the crate's
// match_group/util.rs.
#![tactic(auto)]

ghost use Rattle.std.specs.Prelude.{◌≡◌, [], ◌≤◌, length};
ghost use Rattle.meaning.specs.Limits.{name_bytes};
ghost use Rattle.meaning.specs.Spec.{Spec};
ghost use Rattle.meaning.specs.Listing.{forward_ends, reverse_ends};
ghost use Rattle.refspec.specs.Instructions.{side_text};
ghost use Rattle.matcher.specs.Matching.{ends_meant, EndsWithin, MatcherWithin, Matches, needle_meant, target_meant, object_ends};
ghost use Rattle.match_one.specs.Answers.{hit_by, Answers, needle_form, reverse_forms, AnswersBack, object_places, forward_row, reverse_row, forward_made, reverse_made};
ghost use Rattle.match_one.specs.Known.{known_places, known_back, KnownForward, KnownReverse};

mod rows;

use glob::Captured;
use matcher::types::{Ends, Lead, Matcher, Needle, RowText, Target};
use refspec::side::text_of;
use rows::{
    as_spelt, caught, caught_len, completed, filled, side_glob, source_hit, takes, whole_if,
};

// What a spec catches of a name that it matches, forward: the name is the source of the row, and an object id matches no name.
pub fn forward_hit(specs: &[u8], m: Matcher, name: &[u8]) -> Option<Captured>
    requires { MatcherWithin (length specs.now) m }
    ensures { Answers specs.now name.now m.dst m.rhs (hit_by (needle_meant (side_text specs.now m.src) m.lhs) name.now) (forward_made m result)
        × ((s : Spec) → Matches specs.now s m → ends_meant specs.now name.now (forward_made m result) ≡ forward_ends s name.now) }
{
    let c = source_hit(specs, m, name)?;
    if takes(m) { Some(c) } else { None }
}

// The ends of the forward row of a name of which this was caught.
pub fn forward_made(specs: &[u8], m: Matcher, c: Captured) -> Ends
    requires { MatcherWithin (length specs.now) m }
    ensures { result ≡ forward_row m c }
{
    Ends {
        source: RowText::Name,
        destination: match m.rhs {
            Target::Absent => RowText::Absent,
            Target::Pattern(star) => filled(specs, m.dst, star, c),
            Target::Literal(lead) => RowText::Led(lead, m.dst),
        },
    }
}

// What a spec catches of a name in reverse: the name is the destination of the row, of which nothing is completed.
pub fn reverse_hit(specs: &[u8], m: Matcher, name: &[u8]) -> Option<Captured>
    requires { MatcherWithin (length specs.now) m }
    ensures { AnswersBack specs.now name.now (reverse_forms (needle_form (side_text specs.now m.src) m.lhs) (target_meant (side_text specs.now m.dst) m.rhs) name.now) (reverse_made m result)
        × ((s : Spec) → Matches specs.now s m → ends_meant specs.now name.now (reverse_made m result) ≡ reverse_ends s name.now) }
{
    match m.lhs {
        Needle::Absent => None,
        Needle::Glob(_) => {
            let Target::Pattern(second) = m.rhs else {
                return None;
            };
            side_glob(specs, m.dst, second, name)
        }
        Needle::FullName | Needle::Object | Needle::PartialName => {
            let Target::Literal(_) = m.rhs else {
                return None;
            };
            whole_if(compare::same(text_of(specs, b"HEAD", m.dst), name))
        }
    }
}

// The ends of the reverse row of a name of which this was caught.
pub fn reverse_made(specs: &[u8], m: Matcher, c: Captured) -> Ends
    requires { MatcherWithin (length specs.now) m }
    ensures { result ≡ reverse_row m c }
{
    Ends {
        source: match m.lhs {
            Needle::Glob(star) => filled(specs, m.src, star, c),
            _ => RowText::Led(Lead::AsIs, m.src),
        },
        destination: RowText::Name,
    }
}

// The ends of the row of an object source, whatever the names.
pub fn object(specs: &[u8], m: Matcher) -> Option<Ends>
    requires { MatcherWithin (length specs.now) m }
    ensures { (result ≡ object_places m.src m.lhs m.dst m.rhs) × ((s : Spec) → Matches specs.now s m → ends_meant specs.now [] result ≡ object_ends s) × EndsWithin (length specs.now) 0 result }
{
    match m.lhs {
        Needle::Object => completed(m, RowText::Led(Lead::Digits, m.src)),
        _ => None,
    }
}

// The ends of the forward row of a name of n bytes, which is known to have one, or of the row of an object source.
pub fn known_forward(specs: &[u8], m: Matcher, n: usize) -> Option<Ends>
    requires { MatcherWithin (length specs.now) m × (n ≤ name_bytes) }
    ensures { (result ≡ known_places m.src m.lhs m.dst m.rhs n) × KnownForward specs.now m n result }
{
    match m.lhs {
        Needle::Absent => None,
        Needle::Glob(star) => {
            let len = caught_len(m.src, n)?;
            caught(specs, m, Captured { from: star, len })
        }
        Needle::FullName | Needle::PartialName => completed(m, RowText::Name),
        Needle::Object => object(specs, m),
    }
}

// The ends of the reverse row of a name of n bytes, which is known to have one.
pub fn known_reverse(specs: &[u8], m: Matcher, n: usize) -> Option<Ends>
    requires { MatcherWithin (length specs.now) m × (n ≤ name_bytes) }
    ensures { (result ≡ known_back m.src m.lhs m.dst m.rhs n) × KnownReverse specs.now m n result }
{
    match m.lhs {
        Needle::Absent => None,
        Needle::Glob(star) => {
            let Target::Pattern(second) = m.rhs else {
                return None;
            };
            let len = caught_len(m.dst, n)?;
            let c = Captured { from: second, len };
            Some(Ends {
                source: filled(specs, m.src, star, c),
                destination: RowText::Name,
            })
        }
        Needle::FullName | Needle::Object | Needle::PartialName => {
            let Target::Literal(_) = m.rhs else {
                return None;
            };
            Some(as_spelt(m))
        }
    }
}
