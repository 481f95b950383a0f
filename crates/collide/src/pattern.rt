// Two patterns: the longer start followed by the longer end.
ghost use Rattle.std.specs.Prelude.{[], ◌∷◌, ◌≤◌, length};
ghost use Rattle.std.proofs.Math.Option.{some};
ghost use Rattle.meaning.specs.Limits.{spec_list_bytes};
ghost use Rattle.meaning.specs.Spec.{accepted};
ghost use Rattle.meaning.specs.Buffers.{MeetsMaybe};
ghost use Rattle.meaning.specs.Collide.{longer_start, longer_end, followed_by};

use super::answer::{Collision, destination, none};

// A start that was found, followed by the longer of two ends, if one closes the other.
fn with_end(start: &[u8], b: &[u8], d: &[u8], out: &mut [u8]) -> Collision
    requires { (length start.now ≤ spec_list_bytes) × (length b.now ≤ spec_list_bytes) × (length d.now ≤ spec_list_bytes) }
    ensures { MeetsMaybe (accepted (followed_by (some start.now) (longer_end b.now d.now) ∷ [])) out.old out.new result.refusal result.which result.collides result.length }
{
    if compare::ends(b, d) {
        destination(start, d, out)
    } else if compare::ends(d, b) {
        destination(start, b, out)
    } else {
        none()
    }
}

// The longer of the starts a and c, if one begins the other, followed by the longer of the ends b and d.
pub(crate) fn starts_and_ends(a: &[u8], b: &[u8], c: &[u8], d: &[u8], out: &mut [u8]) -> Collision
    requires { (length a.now ≤ spec_list_bytes) × (length b.now ≤ spec_list_bytes) × (length c.now ≤ spec_list_bytes) × (length d.now ≤ spec_list_bytes) }
    ensures { MeetsMaybe (accepted (followed_by (longer_start a.now c.now) (longer_end b.now d.now) ∷ [])) out.old out.new result.refusal result.which result.collides result.length }
{
    if compare::begins(a, c) {
        with_end(c, b, d, out)
    } else if compare::begins(c, a) {
        with_end(a, b, d, out)
    } else {
        none()
    }
}
