// The answer of a record, after its spec.
// As it is: (a) an operation is the C interface's number here; it is handed on as it stands to `parse`, which asks question 18 of it.
ghost use Rattle.std.specs.Prelude.{◌≡◌, ◌∷◌, ◌≤◌, length, drop};
ghost use Rattle.meaning.specs.Bytes.{Text, same};
ghost use Rattle.meaning.specs.Spec.{Spec, read_spec, accepted};
ghost use Rattle.meaning.specs.Instruction.{canonical_text};
ghost use Rattle.meaning.specs.Prefix.{prefix as Meaning·prefix, expand_prefixes};
ghost use Rattle.parse.specs.Places.{side_meant, Within};
ghost use Rattle.refspec.specs.Instructions.{instruction_meant};
ghost use Rattle.recorded.specs.Record.{sized, sized_room, flag_byte, kind_byte, force_byte, instruction_bytes, prefix_bytes, prefixes_bytes, answer_bytes};
ghost use Rattle.recorded.specs.Field.{field_at, Instructs};

use super::field::{bytes_field, text_field};
use super::list::list_field;
use expand::expand_prefixes;
use parse::types::Side;
use refspec::instruction::Instruction;
use refspec::spec::{instruction, prefix};
use write::to_bstring;

// The number of an instruction's kind.
// As it is: (d) no From, for neither `Instruction` nor `u8` is a type of this crate.
fn kind(i: Instruction) -> u8
    ensures { (t : Text) → result ≡ kind_byte (instruction_meant t i) }
{
    match i {
        Instruction::FetchOnly { .. } => 0,
        Instruction::FetchExclude { .. } => 1,
        Instruction::FetchAndUpdate { .. } => 2,
        Instruction::PushAllMatchingBranches { .. } => 3,
        Instruction::PushDelete { .. } => 4,
        Instruction::PushMatching { .. } => 5,
        Instruction::PushExclude { .. } => 6,
    }
}

// An instruction is forced.
// As it is: (d) no method, for `Instruction` is of `refspec`, which does not ask it.
fn is_forced(i: Instruction) -> bool
    ensures { (t : Text) → flag_byte result ≡ force_byte (instruction_meant t i) }
{
    match i {
        Instruction::FetchAndUpdate {
            allow_non_fast_forward,
            ..
        } => allow_non_fast_forward,
        Instruction::PushAllMatchingBranches {
            allow_non_fast_forward,
        } => allow_non_fast_forward,
        Instruction::PushMatching {
            allow_non_fast_forward,
            ..
        } => allow_non_fast_forward,
        _ => false,
    }
}

// That the spec is accepted, and its instruction.
fn instruction_field(told: &[u8], at: usize, i: Instruction) -> Option<usize>
    requires { at ≤ length told.now }
    ensures { (t : Text) → result ≡ field_at told.now at (instruction_bytes (instruction_meant t i)) }
{
    bytes_field(told, at, &[1, kind(i), u8::from(is_forced(i))])
}

// The canonical text.
// As it is: (d) `prefixes_field` has this form, but one function of both takes the call and the field as closures, with contracts of their own.
fn canonical_field(
    told: &[u8],
    at: usize,
    op: u64,
    spec: &[u8],
    scratch: &mut [u8],
) -> Option<usize>
    requires { (at ≤ length told.now) × (sized_room ≤ length scratch.old) }
    ensures { (s : Spec) → read_spec op spec.now ≡ accepted s → result ≡ field_at told.now at (sized (canonical_text op s)) }
{
    let w = to_bstring(op, spec, scratch);
    if w.refusal != 0 {
        return None;
    }
    // As it is: (d) a number of 64 bits has no From to `usize`, and `try_from` may fail.
    let n = w.length as usize;
    text_field(told, at, &scratch[..n])
}

// A prefix that is there.
fn present_field(told: &[u8], at: usize, want: &[u8]) -> Option<usize>
    requires { at ≤ length told.now }
    ensures { result ≡ field_at told.now at (1 ∷ sized want.now) }
{
    let next = bytes_field(told, at, &[1])?;
    text_field(told, next, want)
}

// A prefix.
fn side_field(told: &[u8], at: usize, spec: &[u8], side: Side) -> Option<usize>
    requires { (at ≤ length told.now) × Within (length spec.now) side }
    ensures { result ≡ field_at told.now at (prefix_bytes (side_meant spec.now side)) }
{
    match side {
        Side::Absent => bytes_field(told, at, &[0]),
        Side::Part(start, n) => present_field(told, at, &spec[start..start + n]),
        Side::Head => present_field(told, at, b"HEAD"),
    }
}

// The prefix of the spec.
fn prefix_field(told: &[u8], at: usize, op: u64, spec: &[u8]) -> Option<usize>
    requires { at ≤ length told.now }
    ensures { (s : Spec) → read_spec op spec.now ≡ accepted s → result ≡ field_at told.now at (prefix_bytes (Meaning·prefix op s)) }
{
    match prefix(op, spec) {
        Ok(side) => side_field(told, at, spec, side),
        Err(_) => None,
    }
}

// The prefixes that the spec yields.
fn prefixes_field(told: &[u8], at: usize, op: u64, spec: &[u8], scratch: &mut [u8]) -> Option<usize>
    requires { (at ≤ length told.now) × (sized_room ≤ length scratch.old) }
    ensures { (s : Spec) → read_spec op spec.now ≡ accepted s → result ≡ field_at told.now at (prefixes_bytes (expand_prefixes op s)) }
{
    let w = expand_prefixes(op, spec, scratch);
    if w.refusal != 0 {
        return None;
    }
    // As it is: (d) as in `canonical_field`.
    let n = w.length as usize;
    list_field(told, at, &scratch[..n])
}

// The answer to a spec that is accepted.
fn accepted_field(
    told: &[u8],
    at: usize,
    op: u64,
    spec: &[u8],
    i: Instruction,
    scratch: &mut [u8],
) -> Option<usize>
    requires { (at ≤ length told.now) × Instructs op spec.now i × (sized_room ≤ length scratch.old) }
    ensures { result ≡ field_at told.now at (answer_bytes op (read_spec op spec.now)) }
{
    let text = instruction_field(told, at, i)?;
    let side = canonical_field(told, text, op, spec, scratch)?;
    let list = prefix_field(told, side, op, spec)?;
    prefixes_field(told, list, op, spec, scratch)
}

// The answer, from `at` to the record's end.
pub(crate) fn answer_agrees(
    told: &[u8],
    at: usize,
    op: u64,
    spec: &[u8],
    scratch: &mut [u8],
) -> bool
    requires { (at ≤ length told.now) × (sized_room ≤ length scratch.old) }
    ensures { result ≡ same (answer_bytes op (read_spec op spec.now)) (drop at told.now) }
{
    match instruction(op, spec) {
        Ok(i) => accepted_field(told, at, op, spec, i, scratch) == Some(told.len()),
        Err(_) => compare::same(&[0], &told[at..]),
    }
}
