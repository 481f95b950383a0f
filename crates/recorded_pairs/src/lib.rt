// A recorded report on two specs, held to ours, field by field. specs/PairRecord.antt has the record's form.
#![tactic(auto)]

ghost use Rattle.std.specs.Prelude.{◌≡◌, true, [], ◌∷◌, ◌↔◌, ◌≤◌, length, drop};
ghost use Rattle.meaning.specs.Bytes.{same};
ghost use Rattle.meaning.specs.Collide.{collide as Meaning·collide};
ghost use Rattle.recorded.specs.Record.{sized_room};
ghost use Rattle.recorded.specs.Field.{field_at};
ghost use Rattle.recorded_pairs.specs.PairRecord.{report_bytes, IsPairRecord};

use collide::answer::Collision;
use collide::collide;
use recorded::field::{front_field, text_end};

// A number, as one byte.
fn number_field(told: &[u8], at: usize, n: u64) -> Option<usize>
    requires { at ≤ length told.now }
    ensures { result ≡ field_at told.now at (n ∷ []) }
{
    let b = u64::from(*told.get(at)?);
    if b != n {
        return None;
    }
    Some(at + 1)
}

// The refusal, the spec that it is of, and the mark of a yes.
fn numbers_field(told: &[u8], at: usize, c: Collision) -> Option<usize>
    requires { at ≤ length told.now }
    ensures { result ≡ field_at told.now at (c.refusal ∷ c.which ∷ c.collides ∷ []) }
{
    let second = number_field(told, at, c.refusal)?;
    let third = number_field(told, second, c.which)?;
    number_field(told, third, c.collides)
}

// The report on two specs, from `at` to the record's end.
fn report_agrees(told: &[u8], at: usize, first: &[u8], second: &[u8], scratch: &mut [u8]) -> bool
    requires { (at ≤ length told.now) × (sized_room ≤ length scratch.old) }
    ensures { result ≡ same (report_bytes (Meaning·collide first.now second.now)) (drop at told.now) }
{
    let c = collide(first, second, scratch);
    let Some(next) = numbers_field(told, at, c) else {
        return false;
    };
    front_field(told, next, c.length, scratch) == Some(told.len())
}

// The record tells what we report on the two specs that it names. `scratch` has room for a destination; what it holds afterwards is left
// open.
pub fn pair_agrees(told: &[u8], scratch: &mut [u8]) -> bool
    requires { sized_room ≤ length scratch.old }
    ensures { (result ≡ true) ↔ IsPairRecord told.now }
{
    let Some(second) = text_end(told, 0) else {
        return false;
    };
    let Some(at) = text_end(told, second) else {
        return false;
    };
    let from = second + 2;
    report_agrees(told, at, &told[2..second], &told[from..at], scratch)
}
