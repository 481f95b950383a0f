// Reading a row list: a row at a cursor, and the questions in order, each row in turn.
#![tactic(auto)]

ghost use Rattle.std.specs.Prelude.{◌≡◌, ◌+◌, ◌≤◌, length};
ghost use Rattle.meaning.specs.Limits.{row_list_bytes};
ghost use Rattle.meaning.specs.Rows.{object_digits, row_passes, row_record, read_rows};
ghost use Rattle.promises.specs.Facts.{records};
ghost use Rattle.list.specs.Checked.{checked, numbers_of};
ghost use Rattle.row_fields.specs.Fields.{row_meant};
ghost use Rattle.row_list.specs.Rows.{row_step_at, RowSays, found_row, RowHere};

use limits::{ID_DIGITS, ROW_LIST_BYTES};
use list::cursor::{Cursor, Record, Step};
use list::refused::{Refused, numbered};
use refusal::Refusal;
use row_fields::{RowPlace, read_front};

// The bytes are lower-case digits, as many as an object id has.
fn object_digits(t: &[u8]) -> bool
    ensures { result ≡ object_digits t.now }
{
    t.len() == ID_DIGITS && hex_digits::all_lower_hex(t)
}

// Question 16: the spec number is in the list, the kind 0 or 1, an object's source the lower-case digits of an object id.
fn row_passes(list: &[u8], specs: usize, row: RowPlace) -> bool
    requires { row.src.at + row.src.len ≤ length list.now }
    ensures { result ≡ row_passes specs (row_meant list.now row) }
{
    row.spec < specs && (row.kind == 0 || row.kind == 1 && object_digits(row.src.of(list)))
}

// The row that stands at a cursor, under so many specs. Inlined, since else all its fields are copied for each row.
#[inline(always)]
pub fn next_row(c: Cursor, list: &[u8], specs: usize) -> Step<RowPlace>
    ensures { (result ≡ row_step_at specs list.now c.at) × RowSays specs list.now c.at result }
{
    if list.len() <= c.at {
        return Ok(None);
    }
    let Some(r) = read_front(list, c.at) else {
        return Err(Refusal::Malformed);
    };
    if !row_passes(list, specs, r.value) {
        return Err(Refusal::RowOutside);
    }
    Ok(Some(r))
}

// The row that stands at a cursor of a row list that was read, where none is refused; none at its end. Inlined as well.
#[inline(always)]
pub fn row_at(c: Cursor, list: &[u8], specs: usize) -> Option<Record<RowPlace>>
    ensures { (result ≡ found_row (row_step_at specs list.now c.at)) × RowHere specs list.now c.at result }
{
    next_row(c, list, specs).unwrap_or(None)
}

// The rows of a row list, one after the other.
// As it is: (d) a `for` needs an iterator of this crate's own, whose step and law are longer than the loops over `next_row` and `row_at`.
fn each_row(list: &[u8], specs: usize) -> Result<usize, Refused>
    requires { length list.now ≤ row_list_bytes }
    ensures { numbers_of result ≡ checked (records (row_record specs) 0 list.now) }
{
    let mut c = Cursor::new();
    let mut count: usize = 0;
    while let Some(r) = numbered(next_row(c, list, specs), count)? {
        c = r.next;
        count += 1;
    }
    Ok(count)
}

// Reads a row list under so many specs: how many rows it has, or the refusal.
pub fn read_rows(list: &[u8], specs: usize) -> Result<usize, Refused>
    ensures { numbers_of result ≡ checked (read_rows specs list.now) }
{
    if ROW_LIST_BYTES < list.len() {
        return Err(Refused::of_list(Refusal::ListTooLong));
    }
    each_row(list, specs)
}
