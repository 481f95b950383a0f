// The sources of the rows at places: measured and written.
ghost use Rattle.std.specs.Prelude.{◌≡◌, ◌+◌, ◌*◌, ◌≤◌, length};
ghost use Rattle.buffer.specs.Splice.{RoomFor, Puts};
ghost use Rattle.parse.specs.Places.{part_at};
ghost use Rattle.meaning.specs.Limits.{row_list_bytes};
ghost use Rattle.meaning.specs.Number.{text_bytes};
ghost use Rattle.conflict.specs.Sizes.{conflict_source_most};
ghost use Rattle.conflict.specs.Shared.{source_at, sources_at, Heads};

use keys::fields::fields;
use keys::key::Source;
use order::run::run_end;

// Of places sorted by source: how many are the first of theirs, and how many bytes the sources take.
#[derive(Clone, Copy)]
pub(crate) struct HeadsSize {
    pub count: usize,
    pub size: usize,
}

// Writes the length of a text of a row list and its bytes, and answers the place after them.
pub(crate) fn put_text(out: &mut [u8], at: usize, rows: &[u8], start: usize, len: usize) -> usize
    requires { (start + len ≤ length rows.now) × (length rows.now ≤ row_list_bytes) × RoomFor out.old at (text_bytes (part_at rows.now start len)) }
    ensures { Puts out.old at (text_bytes (part_at rows.now start len)) out.new result }
{
    let i = number::put(out, at, len);
    buffer::put(out, i, &rows[start..start + len])
}

// How many bytes the source of the row at a place takes in a conflict.
fn source_size(rows: &[u8], p: usize) -> usize
    requires { length rows.now ≤ row_list_bytes }
    ensures { (result ≡ length (source_at rows.now p)) × (result ≤ conflict_source_most) }
{
    let row = fields(rows, p);
    number::size(row.spec) + number::size(row.kind) + number::size(row.src.len) + row.src.len
}

// Writes the source of the row at a place, and answers the place after it.
fn put_source(out: &mut [u8], to: usize, rows: &[u8], p: usize) -> usize
    requires { (length rows.now ≤ row_list_bytes) × RoomFor out.old to (source_at rows.now p) }
    ensures { Puts out.old to (source_at rows.now p) out.new result }
{
    let row = fields(rows, p);
    let i = number::put(out, to, row.spec);
    let j = number::put(out, i, row.kind);
    put_text(out, j, rows, row.src.at, row.src.len)
}

// How many bytes the sources of the rows at places take.
// As it is: (d) here and below, std has no conversion of a place of 32 bits to an index that cannot fail, so each is by `as`.
pub(crate) fn sources_size(rows: &[u8], places: &[u32]) -> usize
    requires { (length rows.now ≤ row_list_bytes) × (length places.now ≤ row_list_bytes) }
    ensures { (result ≡ length (sources_at rows.now places.now)) × (result ≤ length places.now * conflict_source_most) }
{
    let mut size = 0;
    for p in places {
        size += source_size(rows, *p as usize);
    }
    size
}

// Writes the sources of the rows at places, and answers the place after them.
pub(crate) fn put_sources(out: &mut [u8], start: usize, rows: &[u8], places: &[u32]) -> usize
    requires { (length rows.now ≤ row_list_bytes) × RoomFor out.old start (sources_at rows.now places.now) }
    ensures { Puts out.old start (sources_at rows.now places.now) out.new result }
{
    let mut to = start;
    for p in places {
        to = put_source(out, to, rows, *p as usize);
    }
    to
}

// How many sources there are at places sorted by source, and how many bytes they take, each once.
// As it is: (d) a step is a run, which ends where the key of its first place does; `chunk_by` asks neighbours, and a `for` has to keep a key.
pub(crate) fn heads_size(rows: &[u8], places: &[u32]) -> HeadsSize
    requires { (length rows.now ≤ row_list_bytes) × (length places.now ≤ row_list_bytes) }
    ensures { Heads rows.now places.now result }
{
    let mut count = 0;
    let mut size = 0;
    let mut i = 0;
    while i < places.len() {
        let end = run_end::<Source>(rows, places, i);
        count += 1;
        size += source_size(rows, places[i] as usize);
        i = end;
    }
    HeadsSize { count, size }
}
