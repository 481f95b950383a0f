// What the sides of a spec are: what a source looks for, and how a destination is completed.
ghost use Rattle.std.specs.Prelude.{◌+◌, length};
ghost use Rattle.parse.specs.declared.types.Side.TheVariants.{Head};
ghost use Rattle.parse.specs.Places.{Within};
ghost use Rattle.matcher.specs.Sides.{NeedleOf, NeedleFor, LeadOf, TargetOf, TargetFor};

use super::types::{Lead, Needle, Target};
use parse::types::Side;

// What a source looks for, by its text: star, `refs/`, object id, partial name; a negative without a star is a full name.
fn text_needle(negative: bool, t: &[u8]) -> Needle
    ensures { NeedleOf negative t.now result }
{
    if let Some(star) = text::find(b'*', t) {
        return Needle::Glob(star);
    }
    if negative || compare::begins(b"refs/", t) {
        Needle::FullName
    } else if hex_digits::object_id(t) {
        Needle::Object
    } else {
        Needle::PartialName
    }
}

// What a source looks for.
pub(crate) fn needle_of(specs: &[u8], negative: bool, side: Side) -> Needle
    requires { Within (length specs.now) side }
    ensures { NeedleFor specs.now negative side result }
{
    match side {
        Side::Absent => Needle::Absent,
        Side::Part(at, n) => text_needle(negative, &specs[at..at + n]),
        Side::Head if negative => Needle::FullName,
        Side::Head => Needle::PartialName,
    }
}

// How a literal destination is led where it is completed.
fn lead_of(t: &[u8]) -> Lead
    ensures { LeadOf t.now result }
{
    if compare::begins(b"refs/", t) {
        Lead::AsIs
    } else if hex_digits::object_id(t) {
        Lead::HeadsDigits
    } else if compare::begins(b"tags/", t) || compare::begins(b"remotes/", t) {
        Lead::Refs
    } else {
        Lead::Heads
    }
}

// What a destination is, by its text.
fn text_target(t: &[u8]) -> Target
    ensures { TargetOf t.now result }
{
    match text::find(b'*', t) {
        Some(star) => Target::Pattern(star),
        None => Target::Literal(lead_of(t)),
    }
}

// What a destination is.
pub fn target_of(specs: &[u8], side: Side) -> Target
    requires { Within (length specs.now) side }
    ensures { TargetFor specs.now side result }
{
    match side {
        Side::Absent => Target::Absent,
        Side::Part(at, n) => text_target(&specs[at..at + n]),
        Side::Head => Target::Literal(Lead::Heads),
    }
}
