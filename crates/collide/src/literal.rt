// A literal destination as two pieces, what leads it and what is led: it is compared and written without being put together.
ghost use Rattle.std.specs.Prelude.{◌≡◌, true, cond, [], ◌∷◌, ◌++◌, suc, ◌<◌, ◌≤◌, length, take, drop};
ghost use Rattle.std.proofs.Math.Option.{none, some};
ghost use Rattle.meaning.specs.Bytes.{same, lower, object_id};
ghost use Rattle.meaning.specs.Limits.{spec_list_bytes};
ghost use Rattle.meaning.specs.Spec.{accepted};
ghost use Rattle.meaning.specs.Buffers.{MeetsMaybe};
ghost use Rattle.meaning.specs.Collide.{literal_in};
ghost use Rattle.matcher.specs.Matching.{led_text, body_bytes};
ghost use Rattle.matcher.specs.Sides.{DigitsOf};
ghost use Rattle.collide.specs.Targets.{digit_room};

use super::answer::{Collision, destination, none};
use glob::pieces::{pieces_glob, pieces_same};
use limits::ID_DIGITS;
use matcher::types::Lead;

// The digits of an object id in lower case.
// As it is: (a) there is no heap, so they stand in an array.
fn lower_digits(t: &[u8]) -> [u8; ID_DIGITS]
    requires { object_id t.now ≡ true }
    ensures { result ≡ lower t.now }
{
    let mut digits = [0u8; ID_DIGITS];
    buffer::put_lower(&mut digits, 0, t);
    digits
}

// Room for digits, which holds those of a literal whose digits are taken.
fn digit_room(lead: Lead, t: &[u8]) -> [u8; ID_DIGITS]
    requires { DigitsOf t.now lead }
    ensures { result ≡ digit_room lead t.now }
{
    match lead {
        Lead::AsIs | Lead::Refs | Lead::Heads => [0u8; ID_DIGITS],
        Lead::HeadsDigits | Lead::Digits => lower_digits(t),
    }
}

// The bytes that are led: the text, or its digits in lower case.
fn body_bytes<'a>(lead: Lead, t: &'a [u8], digits: &'a [u8]) -> &'a [u8]
    requires { digits.now ≡ digit_room lead t.now }
    ensures { result.now ≡ body_bytes lead t.now }
{
    match lead {
        Lead::AsIs | Lead::Refs | Lead::Heads => t,
        Lead::HeadsDigits | Lead::Digits => digits,
    }
}

// Two pieces of which the first is no longer are two others: what is past it is asked first, texts that begin alike differ there.
fn same_past(a: &[u8], b: &[u8], c: &[u8], d: &[u8]) -> bool
    requires { length a.now ≤ length c.now }
    ensures { result ≡ same (a.now ++ b.now) (c.now ++ d.now) }
{
    pieces_same(b, &c[a.len()..], d, &[]) && compare::begins(a, c)
}

// Two pieces are two others.
fn pairs_same(a: &[u8], b: &[u8], c: &[u8], d: &[u8]) -> bool
    ensures { result ≡ same (a.now ++ b.now) (c.now ++ d.now) }
{
    if a.len() <= c.len() {
        same_past(a, b, c, d)
    } else {
        same_past(c, d, a, b)
    }
}

// Two literals in two pieces each.
fn two_pairs(a: &[u8], b: &[u8], c: &[u8], d: &[u8], out: &mut [u8]) -> Collision
    requires { (length a.now ≤ spec_list_bytes) × (length b.now ≤ spec_list_bytes) }
    ensures { MeetsMaybe (accepted (cond (same (a.now ++ b.now) (c.now ++ d.now)) (some (a.now ++ b.now)) none ∷ [])) out.old out.new result.refusal result.which result.collides result.length }
{
    if pairs_same(a, b, c, d) {
        destination(a, b, out)
    } else {
        none()
    }
}

// Two literals: they collide where both are completed to one text.
pub(crate) fn two_literals(t: &[u8], lead: Lead, u: &[u8], other: Lead, out: &mut [u8]) -> Collision
    requires { DigitsOf t.now lead × DigitsOf u.now other × (length t.now ≤ spec_list_bytes) }
    ensures { MeetsMaybe (accepted (cond (same (led_text lead t.now) (led_text other u.now)) (some (led_text lead t.now)) none ∷ [])) out.old out.new result.refusal result.which result.collides result.length }
{
    let digits = digit_room(lead, t);
    let others = digit_room(other, u);
    two_pairs(
        lead.bytes(),
        body_bytes(lead, t, &digits),
        other.bytes(),
        body_bytes(other, u, &others),
        out,
    )
}

// A literal in two pieces, and a pattern p whose star stands at a place.
fn pair_in(p: &[u8], star: usize, a: &[u8], b: &[u8], out: &mut [u8]) -> Collision
    requires { (star < length p.now) × (length a.now ≤ spec_list_bytes) × (length b.now ≤ spec_list_bytes) }
    ensures { MeetsMaybe (accepted (literal_in (take star p.now) (drop (suc star) p.now) (a.now ++ b.now) ∷ [])) out.old out.new result.refusal result.which result.collides result.length }
{
    if pieces_glob(p, star, a, b, &[]) {
        destination(a, b, out)
    } else {
        none()
    }
}

// A literal and a pattern p: they collide where the pattern matches the completed text.
pub(crate) fn literal_in(p: &[u8], star: usize, t: &[u8], lead: Lead, out: &mut [u8]) -> Collision
    requires { (star < length p.now) × DigitsOf t.now lead × (length t.now ≤ spec_list_bytes) }
    ensures { MeetsMaybe (accepted (literal_in (take star p.now) (drop (suc star) p.now) (led_text lead t.now) ∷ [])) out.old out.new result.refusal result.which result.collides result.length }
{
    let digits = digit_room(lead, t);
    pair_in(p, star, lead.bytes(), body_bytes(lead, t, &digits), out)
}
