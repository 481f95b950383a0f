// The index of a row list: the places of its rows that have a destination, sorted by it, so that rows of one destination are a run.
// As it is: (a) there is no heap, so an index and the scratch of its sort are lent; the index is cut and the scratch lent whole, so that a
// struct of both would be taken apart at each call.
ghost use Rattle.std.specs.Prelude.{◌≡◌, ◌+◌, ◌≤◌, ◌<◌, length, take};
ghost use Rattle.meaning.specs.Limits.{row_list_bytes};
ghost use Rattle.buffer.specs.Splice.{splice};
ghost use Rattle.order.specs.Rooms.{HalfRoom};
ghost use Rattle.row_list.specs.Lists.{rows_in, RowsRead};
ghost use Rattle.conflicts.specs.ConflictBytes.{conflicts_bytes, put_if_room, InList};
ghost use Rattle.conflicts.specs.Indexed.{Indexed, SortedIndex, Stored};

use conflict::{put_run, run_size};
use keys::key::Destination;
use list::cursor::Cursor;
use order::run::run_end;
use order::sort::sort;
use parse::types::Side;
use row_list::row_at;

// Stores the place of a row after n others, if the row has a destination, and answers how many there are.
fn store(index: &mut [u32], n: usize, at: usize, dst: Side) -> usize
    requires { (n < length index.old) × (at ≤ row_list_bytes) × InList row_list_bytes dst }
    ensures { Stored index.old n at dst index.new result }
{
    match dst {
        Side::Part(_, _) => {
            index[n] = at as u32;
            n + 1
        }
        Side::Absent | Side::Head => n,
    }
}

// Stores the places of all rows that have a destination, and answers how many there are.
// As it is: (d) a walk by the cursor, for the reason given at `row_list::each_row`.
fn fill(rows: &[u8], specs: usize, index: &mut [u32]) -> usize
    requires { RowsRead specs rows.now × (length (rows_in specs rows.now) ≤ length index.old) }
    ensures { Indexed specs rows.now (take result index.new) × (result ≤ length index.old) }
{
    let mut n = 0;
    let mut c = Cursor::new();
    while let Some(r) = row_at(c, rows, specs) {
        n = store(index, n, c.at, r.value.dst);
        c = r.next;
    }
    n
}

// How many bytes the conflicts of a sorted index take, run by run. The index is left as it was.
// As it is: (d) `chunk_by_mut` cuts where neighbours differ and reads no fewer keys, and that its runs make the index again has to be shown.
fn sorted_size(rows: &[u8], specs: usize, index: &mut [u32], scratch: &mut [u32]) -> usize
    requires { RowsRead specs rows.now × SortedIndex specs rows.now index.old × (length index.old ≤ row_list_bytes) × HalfRoom index.old scratch.old }
    ensures { (result ≡ length (conflicts_bytes (rows_in specs rows.now))) × (index.new ≡ index.old) }
{
    let mut size = 0;
    let mut i = 0;
    while i < index.len() {
        let end = run_end::<Destination>(rows, index, i);
        size += run_size(rows, &mut index[i..end], scratch);
        i = end;
    }
    size
}

// Writes the conflicts of a sorted index at the start of a buffer, run by run.
// As it is: (d) as for `sorted_size`.
fn put_sorted(out: &mut [u8], rows: &[u8], specs: usize, index: &mut [u32], scratch: &mut [u32])
    requires { RowsRead specs rows.now × SortedIndex specs rows.now index.old × (length index.old ≤ row_list_bytes) × HalfRoom index.old scratch.old × (length (conflicts_bytes (rows_in specs rows.now)) ≤ length out.old) }
    ensures { out.new ≡ splice out.old 0 (conflicts_bytes (rows_in specs rows.now)) }
{
    let mut to = 0;
    let mut i = 0;
    while i < index.len() {
        let end = run_end::<Destination>(rows, index, i);
        to = put_run(out, to, rows, &mut index[i..end], scratch);
        i = end;
    }
}

// Writes the conflicts of a sorted index at the start of a buffer that has room for them, and answers how many bytes they take.
fn put_if_room(
    out: &mut [u8],
    rows: &[u8],
    specs: usize,
    index: &mut [u32],
    scratch: &mut [u32],
) -> usize
    requires { RowsRead specs rows.now × SortedIndex specs rows.now index.old × (length index.old ≤ row_list_bytes) × HalfRoom index.old scratch.old }
    ensures { (result ≡ length (conflicts_bytes (rows_in specs rows.now))) × (out.new ≡ put_if_room out.old (conflicts_bytes (rows_in specs rows.now))) }
{
    let size = sorted_size(rows, specs, index, scratch);
    if 0 < size && size <= out.len() {
        put_sorted(out, rows, specs, index, scratch);
    }
    size
}

// The conflicts of a row list, whose places an index has room for, at the start of a buffer that has room for them.
pub(crate) fn put_indexed(
    out: &mut [u8],
    rows: &[u8],
    specs: usize,
    index: &mut [u32],
    scratch: &mut [u32],
) -> usize
    requires { RowsRead specs rows.now × (length (rows_in specs rows.now) ≤ length index.old) × (length index.old ≤ row_list_bytes) × HalfRoom index.old scratch.old }
    ensures { (result ≡ length (conflicts_bytes (rows_in specs rows.now))) × (out.new ≡ put_if_room out.old (conflicts_bytes (rows_in specs rows.now))) }
{
    let n = fill(rows, specs, index);
    let index = &mut index[..n];
    sort::<Destination>(rows, index, scratch);
    put_if_room(out, rows, specs, index, scratch)
}
