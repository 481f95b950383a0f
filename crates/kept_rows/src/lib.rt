// The rows that are kept and the fixes of those that go out: measured, and written. Port of `Fix` and of the rows that `validated` retains
// in the crate's match_group/validate.rs.
#![tactic(auto)]

ghost use Rattle.std.specs.Prelude.{◌≡◌, ◌+◌, ◌≤◌, length};
ghost use Rattle.meaning.specs.Bytes.{keep, each, if_given};
ghost use Rattle.meaning.specs.Limits.{row_list_bytes, largest_number};
ghost use Rattle.meaning.specs.Rows.{row_list_of};
ghost use Rattle.meaning.specs.Validation.{is_full, is_kept, fix_of, fix_bytes};
ghost use Rattle.buffer.specs.Splice.{splice, RoomFor, Puts};
ghost use Rattle.parse.specs.Places.{side_meant, Within};
ghost use Rattle.row_fields.specs.Fields.{row_meant};
ghost use Rattle.row_list.specs.Rows.{RowTaken};
ghost use Rattle.row_list.specs.Lists.{rows_in, RowsRead};
ghost use Rattle.kept_rows.specs.Rows.{kept_bytes, fix_on, fix_numbers_most, fix_for, row_fix};

use list::cursor::Cursor;
use parse::types::Side;
use row_fields::RowPlace;
use row_list::row_at;

// How many bytes the kept rows and the fixes take.
#[derive(Clone, Copy)]
pub struct Lengths {
    pub kept: usize,
    pub fixed: usize,
}

// A destination is full: it begins `refs/` or is `HEAD`.
// As it is: (d) that `name` asks of a lock in the same form is by chance.
pub fn is_full(t: &[u8]) -> bool
    ensures { result ≡ is_full t.now }
{
    compare::begins(b"refs/", t) || compare::same(t, b"HEAD")
}

// A row with this destination is kept: it is full, or there is none.
fn is_kept(rows: &[u8], dst: Side) -> bool
    requires { Within (length rows.now) dst }
    ensures { result ≡ if_given is_full (side_meant rows.now dst) }
{
    match dst {
        Side::Part(at, n) => is_full(&rows[at..at + n]),
        Side::Absent | Side::Head => true,
    }
}

// How many bytes a row that ends at `end` gives to the kept rows.
fn row_size(rows: &[u8], specs: usize, at: usize, row: RowPlace, end: usize) -> usize
    requires { RowTaken specs rows.now at row end }
    ensures { (result ≡ length (kept_bytes (row_meant rows.now row))) × (result ≤ length rows.now) }
{
    if is_kept(rows, row.dst) { end - at } else { 0 }
}

// How many bytes the fix of a destination takes; a full one gives none.
fn name_fix_size(name: &[u8], spec: usize) -> usize
    requires { (length name.now ≤ row_list_bytes) × (spec ≤ largest_number) }
    ensures { (result ≡ length (fix_on spec name.now)) × (result ≤ length name.now + fix_numbers_most) }
{
    if is_full(name) {
        0
    } else {
        number::size(name.len()) + name.len() + number::size(spec)
    }
}

// How many bytes a row gives to the fixes, by its spec number and its destination.
fn fix_size(rows: &[u8], spec: usize, dst: Side) -> usize
    requires { Within (length rows.now) dst × (length rows.now ≤ row_list_bytes) × (spec ≤ largest_number) }
    ensures { (result ≡ length (fix_for spec (side_meant rows.now dst))) × (result ≤ length rows.now + fix_numbers_most) }
{
    match dst {
        Side::Part(at, n) => name_fix_size(&rows[at..at + n], spec),
        Side::Absent | Side::Head => 0,
    }
}

// How many bytes the kept rows and the fixes of a row list take.
// As it is: (d) a walk by the cursor, for the reason given at `row_list::each_row`.
pub fn measure(rows: &[u8], specs: usize) -> Lengths
    requires { RowsRead specs rows.now }
    ensures { (result.kept ≡ length (row_list_of (keep is_kept (rows_in specs rows.now)))) × (result.fixed ≡ length (each (each (rows_in specs rows.now) fix_of) fix_bytes)) }
{
    let mut kept = 0;
    let mut fixed = 0;
    let mut c = Cursor::new();
    while let Some(r) = row_at(c, rows, specs) {
        kept += row_size(rows, specs, c.at, r.value, r.next.at);
        fixed += fix_size(rows, r.value.spec, r.value.dst);
        c = r.next;
    }
    Lengths { kept, fixed }
}

// Writes the fix of a destination, and answers the place after it; a full one gives none.
fn put_name_fix(out: &mut [u8], to: usize, name: &[u8], spec: usize) -> usize
    requires { (length name.now ≤ row_list_bytes) × (spec ≤ largest_number) × RoomFor out.old to (fix_on spec name.now) }
    ensures { Puts out.old to (fix_on spec name.now) out.new result }
{
    if is_full(name) {
        return to;
    }
    let i = number::put(out, to, name.len());
    let j = buffer::put(out, i, name);
    number::put(out, j, spec)
}

// Writes the fix that a row gives, by its spec number and its destination, and answers the place after it.
fn put_fix(out: &mut [u8], to: usize, rows: &[u8], spec: usize, dst: Side) -> usize
    requires { Within (length rows.now) dst × (length rows.now ≤ row_list_bytes) × (spec ≤ largest_number) × RoomFor out.old to (fix_for spec (side_meant rows.now dst)) }
    ensures { Puts out.old to (fix_for spec (side_meant rows.now dst)) out.new result }
{
    match dst {
        Side::Part(at, n) => put_name_fix(out, to, &rows[at..at + n], spec),
        Side::Absent | Side::Head => to,
    }
}

// Copies a row that ends at `end` to the kept rows, or writes its fix where it goes out. Answers the places after what is written.
fn put_either(
    out: &mut [u8],
    fixes: &mut [u8],
    to: Lengths,
    rows: &[u8],
    specs: usize,
    at: usize,
    row: RowPlace,
    end: usize,
) -> Lengths
    requires { RowTaken specs rows.now at row end × (length rows.now ≤ row_list_bytes) × RoomFor out.old to.kept (kept_bytes (row_meant rows.now row)) × RoomFor fixes.old to.fixed (row_fix (row_meant rows.now row)) }
    ensures { (out.new ≡ splice out.old to.kept (kept_bytes (row_meant rows.now row))) × (fixes.new ≡ splice fixes.old to.fixed (row_fix (row_meant rows.now row))) × (result.kept ≡ to.kept + length (kept_bytes (row_meant rows.now row))) × (result.fixed ≡ to.fixed + length (row_fix (row_meant rows.now row))) }
{
    if is_kept(rows, row.dst) {
        Lengths {
            kept: buffer::put(out, to.kept, &rows[at..end]),
            fixed: to.fixed,
        }
    } else {
        Lengths {
            kept: to.kept,
            fixed: put_fix(fixes, to.fixed, rows, row.spec, row.dst),
        }
    }
}

// Writes the kept rows of a row list at the start of one buffer and the fixes at the start of the other, and answers their lengths.
// As it is: (d) a walk by the cursor, for the reason given at `row_list::each_row`.
pub fn put_rows(out: &mut [u8], fixes: &mut [u8], rows: &[u8], specs: usize) -> Lengths
    requires { RowsRead specs rows.now × (length (row_list_of (keep is_kept (rows_in specs rows.now))) ≤ length out.old) × (length (each (each (rows_in specs rows.now) fix_of) fix_bytes) ≤ length fixes.old) }
    ensures { (out.new ≡ splice out.old 0 (row_list_of (keep is_kept (rows_in specs rows.now)))) × (fixes.new ≡ splice fixes.old 0 (each (each (rows_in specs rows.now) fix_of) fix_bytes)) × (result.kept ≡ length (row_list_of (keep is_kept (rows_in specs rows.now)))) × (result.fixed ≡ length (each (each (rows_in specs rows.now) fix_of) fix_bytes)) }
{
    let mut to = Lengths { kept: 0, fixed: 0 };
    let mut c = Cursor::new();
    while let Some(r) = row_at(c, rows, specs) {
        to = put_either(out, fixes, to, rows, specs, c.at, r.value, r.next.at);
        c = r.next;
    }
    to
}
