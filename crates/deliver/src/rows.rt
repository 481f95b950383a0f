// The rows of a row list in print.
ghost use Rattle.std.specs.Prelude.{◌≡◌, ◌+◌, ◌*◌, ◌≤◌, length};
ghost use Rattle.meaning.specs.Limits.{program_bytes};
ghost use Rattle.meaning.specs.Deliveries.{row_line};
ghost use Rattle.buffer.specs.Splice.{RoomFor, Puts};
ghost use Rattle.parse.specs.Places.{side_meant, Within};
ghost use Rattle.print.specs.Lines.{lent, lent_size, line_most};
ghost use Rattle.row_fields.specs.Fields.{row_meant};
ghost use Rattle.deliver.specs.Printed.{fetch_rows_in, row_lines, printed_rows, Prints, Listed, RowStands, RowShown};

use super::put_refused;
use limits::{PROGRAM_BYTES, SPEC_COUNT};
use list::cursor::Cursor;
use parse::types::Side;
use print::line::{Row, header_size, put_header};
use refspec::side::text_of;
use refusal::Refusal;
use row_fields::RowPlace;
use row_list::row_at;

// The text of a side, if it is there.
fn side_in(list: &[u8], side: Side) -> Option<&[u8]>
    requires { (length list.now ≤ program_bytes) × Within (length list.now) side }
    ensures { (lent result ≡ side_meant list.now side) × (lent_size result ≤ program_bytes) }
{
    if side.is_present() {
        Some(text_of(list, b"HEAD", side))
    } else {
        None
    }
}

// A row of a row list, as it is printed.
fn row_in(list: &[u8], row: RowPlace) -> Row<'_>
    requires { RowStands list.now row }
    ensures { RowShown list.now row result }
{
    Row {
        item: row.item,
        spec: row.spec,
        kind: row.kind,
        source: &list[row.src.at..row.src.at + row.src.len],
        destination: side_in(list, row.dst),
    }
}

// How many bytes the line of a row has.
fn row_size(list: &[u8], row: RowPlace) -> usize
    requires { RowStands list.now row }
    ensures { (result ≡ length (row_line (row_meant list.now row))) × (result ≤ line_most) }
{
    row_in(list, row).line_size()
}

// Writes the line of a row, and answers the place after it.
fn put_row(out: &mut [u8], i: usize, list: &[u8], row: RowPlace) -> usize
    requires { RowStands list.now row × RoomFor out.old i (row_line (row_meant list.now row)) }
    ensures { Puts out.old i (row_line (row_meant list.now row)) out.new result }
{
    row_in(list, row).put_line(out, i)
}

// How many bytes the lines of a row list have. No row of a list that was accepted is refused.
fn rows_size(list: &[u8]) -> usize
    requires { Listed list.now }
    ensures { (result ≡ length (row_lines (fetch_rows_in list.now))) × (result ≤ line_most * program_bytes) }
{
    let mut c = Cursor::new();
    let mut size = 0;
    // As it is: (d) a cursor answers the next one with each row, and an iterator over it would be a type with laws of its own.
    while let Some(r) = row_at(c, list, SPEC_COUNT) {
        size += row_size(list, r.value);
        c = r.next;
    }
    size
}

// Writes the lines of a row list, and answers the place after them. No row of a list that was accepted is refused.
fn put_rows(out: &mut [u8], at: usize, list: &[u8]) -> usize
    requires { Listed list.now × RoomFor out.old at (row_lines (fetch_rows_in list.now)) }
    ensures { Puts out.old at (row_lines (fetch_rows_in list.now)) out.new result }
{
    let mut c = Cursor::new();
    let mut i = at;
    // As it is: (d) as in `rows_size`.
    while let Some(r) = row_at(c, list, SPEC_COUNT) {
        i = put_row(out, i, list, r.value);
        c = r.next;
    }
    i
}

// Prints a row list at the start of the buffer, and answers how many bytes it printed.
pub(crate) fn print_rows(list: &[u8], out: &mut [u8]) -> usize
    requires { Listed list.now × (program_bytes ≤ length out.old) }
    ensures { Prints (printed_rows list.now) out.old out.new result }
{
    let size = header_size() + rows_size(list);
    if PROGRAM_BYTES < size {
        return put_refused(out, Refusal::BufferTooShort);
    }
    let at = put_header(out, 0);
    put_rows(out, at, list)
}
