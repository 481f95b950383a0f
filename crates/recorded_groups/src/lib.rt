// A recorded answer to a group, held to ours, field by field. specs/GroupRecord.antt has the record's form.
// As it is: (a) an operation is the C interface's number here; `spec_list` asks question 18 of it, and here it is handed on.
#![tactic(auto)]

ghost use Rattle.std.specs.Prelude.{◌≡◌, true, ◌↔◌, ◌≤◌, length, drop};
ghost use Rattle.recorded.specs.Record.{sized_room};
ghost use Rattle.recorded_groups.specs.GroupRecord.{IsGroupAnswer, IsGroupRecord};
ghost use Rattle.recorded_groups.specs.GroupField.{WrittenFound, BackThere};

use buffer::written::Written;
use match_group::{match_lhs, match_rhs};
use prefixes::group_prefixes;
use recorded::field::{front_field, text_end};

// What a call has written to the front of a buffer.
fn written_field(told: &[u8], at: usize, w: Written, out: &[u8]) -> Option<usize>
    requires { at ≤ length told.now }
    ensures { WrittenFound told.now at out.now w.refusal w.length result }
{
    if w.refusal != 0 {
        return None;
    }
    front_field(told, at, w.length, out)
}

// The rows of the reverse listing and the prefix list, from `at` to the record's end.
fn back_agrees(
    told: &[u8],
    at: usize,
    op: u64,
    specs: &[u8],
    items: &[u8],
    scratch: &mut [u8],
) -> bool
    requires { (at ≤ length told.now) × (sized_room ≤ length scratch.old) }
    ensures { (result ≡ true) ↔ BackThere op specs.now items.now (drop at told.now) }
{
    let back = match_rhs(op, specs, items, scratch);
    let Some(next) = written_field(told, at, back, scratch) else {
        return false;
    };
    let list = group_prefixes(op, specs, scratch);
    written_field(told, next, list, scratch) == Some(told.len())
}

// The answer, from `at` to the record's end.
fn answer_agrees(
    told: &[u8],
    at: usize,
    op: u64,
    specs: &[u8],
    items: &[u8],
    scratch: &mut [u8],
) -> bool
    requires { (at ≤ length told.now) × (sized_room ≤ length scratch.old) }
    ensures { (result ≡ true) ↔ IsGroupAnswer op specs.now items.now (drop at told.now) }
{
    let rows = match_lhs(op, specs, items, scratch);
    match written_field(told, at, rows, scratch) {
        Some(next) => back_agrees(told, next, op, specs, items, scratch),
        None => false,
    }
}

// The record tells what we answer to the group that it names. `scratch` has room for our lists; what it holds afterwards is left open.
pub fn group_agrees(told: &[u8], scratch: &mut [u8]) -> bool
    requires { sized_room ≤ length scratch.old }
    ensures { (result ≡ true) ↔ IsGroupRecord told.now }
{
    if told.is_empty() {
        return false;
    }
    let Some(second) = text_end(told, 1) else {
        return false;
    };
    let Some(at) = text_end(told, second) else {
        return false;
    };
    let from = second + 2;
    answer_agrees(
        told,
        at,
        u64::from(told[0]),
        &told[3..second],
        &told[from..at],
        scratch,
    )
}
