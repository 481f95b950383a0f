// Document 01's questions on one spec, in their order: a `.._refusal` answers the first that refuses.
ghost use Rattle.std.specs.Prelude.{MatchResult, ◌≡◌, true, false, not, ◌+◌, ◌≤◌, length};
ghost use Rattle.meaning.specs.Bytes.{◌and◌, ◌or◌, if_given};
ghost use Rattle.meaning.specs.Names.{name_passes, side_passes};
ghost use Rattle.meaning.specs.Spec.{◌else◌then◌, push, hash_like, not_hash_like, sides_refusal};
ghost use Rattle.name.specs.Rules.{kind_of};
ghost use Rattle.refusal.specs.Numbers.{number_of, number_or0};
ghost use Rattle.parse.specs.Places.{op_meant, mode_meant, part_at, side_meant, is_present, Within, SidesWithin, spec_meant};
ghost use Rattle.parse.specs.Questions.{entry_refusal, shape_refusal, text_refusal, side_refusal, first_asked, side_name_kind, is_pattern, kinds_agree, negative_refusal};

use super::types::{Mode, Operation, RefSpec, Side};
use limits::{HASH_DIGITS, SPEC_BYTES};
use name::NameKind;
use refusal::Refusal;

// A side that is asked of its stars and of the name rules.
#[derive(Clone, Copy)]
enum Asked {
    Source,
    Destination,
}

impl Asked {
    // Question 5 or 7.
    fn stars(self) -> Refusal
        ensures { number_of result ≡ first_asked self }
    {
        match self {
            Asked::Source => Refusal::SourceStars,
            Asked::Destination => Refusal::DestinationStars,
        }
    }

    // Question 6 or 8.
    // As it is: (d) two numbers for each of two sides; in one function each caller would take its half of a pair.
    fn name(self) -> Refusal
        ensures { number_of result ≡ first_asked self + 1 }
    {
        match self {
            Asked::Source => Refusal::SourceName,
            Asked::Destination => Refusal::DestinationName,
        }
    }
}

// Questions 18, 1 and 2; the operation, where they pass.
#[tactic(auto, using(std::proofs::lemmas::Bool::Decides::nat_tests), unfolding(crate::specs::Questions::entry_refusal))]
pub(crate) fn entry(op: u64, spec: &[u8]) -> Result<Operation, Refusal>
    ensures { MatchResult result (λ o. (entry_refusal op spec.now ≡ 0) × (op_meant o ≡ op)) (λ q. number_of q ≡ entry_refusal op spec.now) }
{
    let operation = match op {
        0 => Operation::Fetch,
        1 => Operation::Push,
        _ => return Err(Refusal::UnknownOperation),
    };
    if SPEC_BYTES < spec.len() {
        return Err(Refusal::SpecTooLong);
    }
    if operation == Operation::Push && spec.is_empty() {
        return Err(Refusal::Empty);
    }
    Ok(operation)
}

// Questions 3 and 4.
#[tactic(auto, using(std::proofs::lemmas::Bool::Decides::nat_tests), unfolding(crate::specs::Questions::shape_refusal))]
fn shape_refusal(op: Operation, colon: bool, m: Mode, src: Side, dst: Side) -> Result<(), Refusal>
    ensures { number_or0 result ≡ shape_refusal (op_meant op) colon (mode_meant m) (is_present src) (is_present dst) }
{
    if colon && m.is_negative() {
        return Err(Refusal::NegativeWithDestination);
    }
    if colon && op == Operation::Push && src.is_present() && !dst.is_present() {
        return Err(Refusal::PushToEmpty);
    }
    Ok(())
}

// Question 6 or 8 of a text without a star, which a free one skips.
fn name_refusal(asked: Asked, free: bool, t: &[u8]) -> Result<(), Refusal>
    ensures { number_or0 result ≡ ((free or name_passes t.now) else first_asked asked + 1 then 0) }
{
    if free || name::name_partial(t) {
        Ok(())
    } else {
        Err(asked.name())
    }
}

// Question 6 or 8 of a pattern.
fn pattern_refusal(asked: Asked, t: &[u8]) -> Result<(), Refusal>
    ensures { number_or0 result ≡ (side_passes t.now else first_asked asked + 1 then 0) }
{
    if name::pattern(t) {
        Ok(())
    } else {
        Err(asked.name())
    }
}

// Questions 5 and 6, or 7 and 8, of a text: of its stars, where it has two or more, else of the name rules.
#[tactic(auto, using(crate::proofs::Sides::text_plain, crate::proofs::Sides::text_pattern, crate::proofs::Sides::text_stars))]
fn text_refusal(asked: Asked, free: bool, t: &[u8]) -> Result<(), Refusal>
    ensures { number_or0 result ≡ text_refusal (first_asked asked) free t.now }
{
    match text::count(b'*', t) {
        0 => name_refusal(asked, free, t),
        1 => pattern_refusal(asked, t),
        _ => Err(asked.stars()),
    }
}

// Questions 5 and 6, or 7 and 8, of a side; an absent one and `HEAD` pass.
#[tactic(auto, using(crate::proofs::Sides::head_passes))]
fn side_refusal(asked: Asked, free: bool, spec: &[u8], side: Side) -> Result<(), Refusal>
    requires { Within (length spec.now) side }
    ensures { number_or0 result ≡ side_refusal (first_asked asked) free (side_meant spec.now side) }
{
    match side {
        Side::Absent | Side::Head => Ok(()),
        Side::Part(at, n) => text_refusal(asked, free, &spec[at..at + n]),
    }
}

// A push with a destination: its source, where it has no star, skips the name rules.
fn skips_rules(op: Operation, dst: Side) -> bool
    ensures { result ≡ (push (op_meant op) and is_present dst) }
{
    op == Operation::Push && dst.is_present()
}

// What a side is by the name rules; an absent one counts as a name, and `HEAD` is one.
#[tactic(auto, using(crate::proofs::Sides::kind_of_head))]
fn side_kind(spec: &[u8], side: Side) -> NameKind
    requires { Within (length spec.now) side }
    ensures { result ≡ side_name_kind (side_meant spec.now side) }
{
    match side {
        Side::Absent | Side::Head => NameKind::Name,
        Side::Part(at, n) => name::kind(&spec[at..at + n]),
    }
}

// Questions 5 and 6, or 7 and 8, of a side of this kind: only what is neither name nor pattern is asked them one by one.
#[tactic(auto, using(crate::proofs::Sides::name_kind_passes, crate::proofs::Sides::pattern_kind_passes))]
fn kind_refusal(
    asked: Asked,
    free: bool,
    kind: NameKind,
    spec: &[u8],
    side: Side,
) -> Result<(), Refusal>
    requires { Within (length spec.now) side × (kind ≡ side_name_kind (side_meant spec.now side)) }
    ensures { number_or0 result ≡ side_refusal (first_asked asked) free (side_meant spec.now side) }
{
    match kind {
        NameKind::Name | NameKind::Pattern => Ok(()),
        NameKind::Neither => side_refusal(asked, free, spec, side),
    }
}

// The kind that has a star.
fn is_pattern(kind: NameKind) -> bool
    ensures { result ≡ is_pattern kind }
{
    matches!(kind, NameKind::Pattern)
}

// A push without destination.
fn one_sided(op: Operation, dst: Side) -> bool
    ensures { result ≡ (push (op_meant op) and not (is_present dst)) }
{
    op == Operation::Push && !dst.is_present()
}

// Question 9 of sides that passed 5 to 8: both are patterns or neither, asked unless negative or a push without destination.
#[tactic(auto, using(std::proofs::lemmas::Bool::Decides::nat_tests), unfolding(crate::specs::Questions::kinds_agree))]
fn stars_agree(op: Operation, m: Mode, dst: Side, source: NameKind, destination: NameKind) -> bool
    ensures { result ≡ kinds_agree (op_meant op) (mode_meant m) (is_present dst) source destination }
{
    m.is_negative() || one_sided(op, dst) || is_pattern(source) == is_pattern(destination)
}

// Forty or more bytes, all hexadecimal digits.
#[tactic(auto, using(std::proofs::lemmas::Bool::Decides::nat_tests), unfolding(meaning::specs::Spec::hash_like))]
fn looks_like_object_hash(t: &[u8]) -> bool
    ensures { result ≡ hash_like t.now }
{
    HASH_DIGITS <= t.len() && hex_digits::all_hex(t)
}

// A source looks like an object hash, which question 11 refuses.
#[tactic(auto, unfolding(meaning::specs::Spec::hash_like, meaning::specs::Spec::not_hash_like))]
fn source_like_hash(spec: &[u8], src: Side) -> bool
    requires { Within (length spec.now) src }
    ensures { not result ≡ if_given not_hash_like (side_meant spec.now src) }
{
    match src {
        Side::Absent | Side::Head => false,
        Side::Part(at, n) => looks_like_object_hash(&spec[at..at + n]),
    }
}

// Questions 10 and 11, asked of a negative spec.
#[tactic(auto, using(crate::proofs::Parts::present_meant), unfolding(crate::specs::Questions::negative_refusal))]
fn negative_refusal(spec: &[u8], m: Mode, src: Side) -> Result<(), Refusal>
    requires { Within (length spec.now) src }
    ensures { number_or0 result ≡ negative_refusal (mode_meant m) (side_meant spec.now src) }
{
    if !m.is_negative() {
        return Ok(());
    }
    if !src.is_present() {
        return Err(Refusal::NegativeEmpty);
    }
    if source_like_hash(spec, src) {
        return Err(Refusal::NegativeObjectHash);
    }
    Ok(())
}

// Questions 3 to 11.
#[tactic(auto, using(crate::proofs::Order::sides_asked, crate::proofs::Order::stop_at, crate::proofs::Order::go_on, crate::proofs::Order::stars_are))]
pub(crate) fn sides_refusal(
    op: Operation,
    colon: bool,
    spec: &[u8],
    r: RefSpec,
) -> Result<(), Refusal>
    requires { SidesWithin (length spec.now) r }
    ensures { number_or0 result ≡ sides_refusal (op_meant op) colon (spec_meant spec.now r) }
{
    shape_refusal(op, colon, r.mode, r.src, r.dst)?;
    let free = skips_rules(op, r.dst);
    let source = side_kind(spec, r.src);
    kind_refusal(Asked::Source, free, source, spec, r.src)?;
    let destination = side_kind(spec, r.dst);
    kind_refusal(Asked::Destination, false, destination, spec, r.dst)?;
    if !stars_agree(op, r.mode, r.dst, source, destination) {
        return Err(Refusal::PatternUnbalanced);
    }
    negative_refusal(spec, r.mode, r.src)
}
