// The sign of a spec and its sides as places, split at the last colon.
ghost use Rattle.std.specs.Prelude.{◌≡◌, ◌+◌, ◌-◌, ◌≤◌, ◌<◌, length, take, drop};
ghost use Rattle.meaning.specs.Spec.{mode_of, unsigned, one, two, sides_of, has_colon};
ghost use Rattle.parse.specs.Places.{op_meant, mode_meant, mode_case, part_at, placed, supplied_place, source_place, places_at, places_of};

use super::types::{Mode, Operation, RefSpec, Side};

// The places of a spec, and whether a colon parts its sides.
#[derive(Clone, Copy)]
pub(crate) struct Sides {
    pub spec: RefSpec,
    pub colon: bool,
}

// The mode that the first byte gives.
#[tactic(auto, using(crate::proofs::Splits::mode_first, std::proofs::lemmas::Bool::Decides::nat_tests), unfolding(meaning::specs::Spec::mode_of_byte))]
fn mode_of(spec: &[u8]) -> Mode
    ensures { result ≡ mode_case (mode_of spec.now) }
{
    match spec {
        [b'^', ..] => Mode::Negative,
        [b'+', ..] => Mode::Force,
        _ => Mode::Normal,
    }
}

// The place of an absent source: in fetch the supplied `HEAD`, unless negative.
#[tactic(auto, using(std::proofs::lemmas::Bool::Decides::nat_tests), unfolding(crate::specs::Places::supplied_place))]
fn supplied(op: Operation, m: Mode) -> Side
    ensures { result ≡ supplied_place (op_meant op) (mode_meant m) }
{
    if op == Operation::Fetch && !m.is_negative() {
        Side::Head
    } else {
        Side::Absent
    }
}

// The place of a source of n bytes that begins at `at`; one without bytes may be supplied, and `@` is `HEAD`.
#[tactic(auto, using(crate::proofs::Splits::source_none, crate::proofs::Splits::source_some))]
fn source_place(op: Operation, m: Mode, spec: &[u8], at: usize, n: usize) -> Side
    requires { at + n ≤ length spec.now }
    ensures { result ≡ source_place (op_meant op) (mode_meant m) at (part_at spec.now at n) }
{
    if n == 0 {
        supplied(op, m)
    } else if compare::same(&spec[at..at + n], b"@") {
        Side::Head
    } else {
        Side::Part(at, n)
    }
}

// The place of the destination, from `at` to the end; an empty one is absent.
#[tactic(auto, using(crate::proofs::Splits::destination_none, crate::proofs::Splits::destination_some))]
fn destination_place(spec: &[u8], at: usize) -> Side
    requires { at ≤ length spec.now }
    ensures { result ≡ placed at (drop at spec.now) }
{
    match spec.len() - at {
        0 => Side::Absent,
        n => Side::Part(at, n),
    }
}

// The sides where no colon follows the sign.
fn one_side(op: Operation, m: Mode, spec: &[u8], at: usize) -> RefSpec
    requires { at ≤ length spec.now }
    ensures { result ≡ places_at (op_meant op) (mode_meant m) at (one (drop at spec.now)) }
{
    RefSpec {
        mode: m,
        src: source_place(op, m, spec, at, spec.len() - at),
        dst: Side::Absent,
    }
}

// The sides where the last colon is byte number `past` after the sign, counting from 1.
fn two_sides(op: Operation, m: Mode, spec: &[u8], at: usize, past: usize) -> RefSpec
    requires { (0 < past) × (at + past ≤ length spec.now) }
    ensures { result ≡ places_at (op_meant op) (mode_meant m) at (two (take (past - 1) (drop at spec.now)) (drop past (drop at spec.now))) }
{
    RefSpec {
        mode: m,
        src: source_place(op, m, spec, at, past - 1),
        dst: destination_place(spec, at + past),
    }
}

// The sign taken off, and the rest split at its last colon.
pub(crate) fn split(op: Operation, spec: &[u8]) -> Sides
    ensures { (result.spec ≡ places_of (op_meant op) spec.now) × (result.colon ≡ has_colon (sides_of (unsigned spec.now))) }
{
    let m = mode_of(spec);
    let at = m.sign_length();
    let Some(past) = text::last::past_last(b':', &spec[at..]) else {
        return Sides {
            spec: one_side(op, m, spec, at),
            colon: false,
        };
    };
    Sides {
        spec: two_sides(op, m, spec, at, past),
        colon: true,
    }
}
