// What a spec instructs, and its prefix. Port of the crate's spec.rs.
// As it is: (a) an operation is the C interface's number here, of which `parse` has asked question 18: 1 is a push, any other a fetch.
ghost use Rattle.std.specs.Prelude.{◌≡◌, cond, length};
ghost use Rattle.meaning.specs.Prefix.{name_prefix};
ghost use Rattle.meaning.specs.Entries as entries;
ghost use Rattle.parse.specs.Places.{is_present, Within};
ghost use Rattle.refspec.specs.Instructions.{fetch_places, push_places, instruction_places, instructed_places, instructed_meant};
ghost use Rattle.refspec.specs.Prefixes.{remote_place, prefix_size, prefix_place, prefixed_places, prefixed_meant};

use super::instruction::Instruction;
use parse::parse;
use parse::types::{Mode, RefSpec, Side};
use refusal::Refusal;

// A fetch that is not negative.
#[tactic(auto, unfolding(crate::specs::Instructions::fetch_places))]
fn fetch(force: bool, src: Side, dst: Side) -> Instruction
    ensures { result ≡ fetch_places force src dst }
{
    if dst.is_present() {
        Instruction::FetchAndUpdate {
            src,
            dst,
            allow_non_fast_forward: force,
        }
    } else {
        Instruction::FetchOnly { src }
    }
}

// The destination, or the source where there is none.
fn destination_or(src: Side, dst: Side) -> Side
    ensures { result ≡ cond (is_present dst) dst src }
{
    if dst.is_present() { dst } else { src }
}

// A push that is not negative.
#[tactic(auto, unfolding(crate::specs::Instructions::push_places))]
fn push(force: bool, src: Side, dst: Side) -> Instruction
    ensures { result ≡ push_places force src dst }
{
    if src.is_present() {
        Instruction::PushMatching {
            src,
            dst: destination_or(src, dst),
            allow_non_fast_forward: force,
        }
    } else if dst.is_present() {
        Instruction::PushDelete {
            ref_or_pattern: dst,
        }
    } else {
        Instruction::PushAllMatchingBranches {
            allow_non_fast_forward: force,
        }
    }
}

// The instruction of a spec that was read.
// As it is: (d) this, `remote` and `prefix_of` are no methods, for a method of `RefSpec` or `Side`, which are of `parse`, needs a trait here.
#[tactic(auto, using(std::proofs::lemmas::Bool::Decides::nat_tests), unfolding(crate::specs::Instructions::instruction_places))]
pub fn instruction_of(op: u64, r: RefSpec) -> Instruction
    ensures { result ≡ instruction_places op r }
{
    let force = r.mode == Mode::Force;
    match (r.mode.is_negative(), op) {
        (true, 1) => Instruction::PushExclude { src: r.src },
        (true, _) => Instruction::FetchExclude { src: r.src },
        (false, 1) => push(force, r.src, r.dst),
        (false, _) => fetch(force, r.src, r.dst),
    }
}

// The side that prefixes are taken from: the source in fetch, the destination in push; a negative has none.
#[tactic(auto, using(std::proofs::lemmas::Bool::Decides::nat_tests), unfolding(crate::specs::Prefixes::remote_place))]
pub fn remote(op: u64, r: RefSpec) -> Side
    ensures { result ≡ remote_place op r }
{
    if r.mode.is_negative() {
        Side::Absent
    } else if op == 1 {
        r.dst
    } else {
        r.src
    }
}

// How many bytes the prefix of a name has, if it has one.
#[tactic(auto, using(crate::proofs::Fronts::star_place), unfolding(meaning::specs::Prefix::name_prefix, meaning::specs::Spec::starred))]
fn prefix_length(t: &[u8]) -> Option<usize>
    ensures { result ≡ prefix_size (name_prefix t.now) }
{
    if compare::same(t, b"HEAD") {
        return Some(t.len());
    }
    if !compare::begins(b"refs/", t) {
        return None;
    }
    let Some(star) = text::find(b'*', t) else {
        return Some(t.len());
    };
    if compare::begins(b"refs/*", t) || text::has_byte(b']', t) {
        return None;
    }
    Some(star)
}

// The prefix of a side.
#[tactic(auto, using(crate::proofs::Fronts::placed_none, crate::proofs::Fronts::placed_some, parse::proofs::Parts::part_of))]
pub fn prefix_of(spec: &[u8], side: Side) -> Side
    requires { Within (length spec.now) side }
    ensures { result ≡ prefix_place spec.now side }
{
    match side {
        Side::Absent | Side::Head => side,
        Side::Part(at, n) => match prefix_length(&spec[at..at + n]) {
            None => Side::Absent,
            Some(length) => Side::Part(at, length),
        },
    }
}

// What a spec instructs, for an operation, 0 fetch or 1 push, or the question that refuses it.
pub fn instruction(op: u64, spec: &[u8]) -> Result<Instruction, Refusal>
    ensures { (result ≡ instructed_places op spec.now) × (instructed_meant spec.now result ≡ entries.instructed op spec.now) }
{
    Ok(instruction_of(op, parse(op, spec)?))
}

// The prefix of a spec, for an operation, 0 fetch or 1 push, absent where it has none, or the question that refuses the spec.
pub fn prefix(op: u64, spec: &[u8]) -> Result<Side, Refusal>
    ensures { (result ≡ prefixed_places op spec.now) × (prefixed_meant spec.now result ≡ entries.prefixed op spec.now) }
{
    let r = parse(op, spec)?;
    Ok(prefix_of(spec, remote(op, r)))
}
