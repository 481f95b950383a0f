// A row of a listing with its texts as places: how many bytes it has, and writing it. Port of `Mapping` in the crate's
// match_group/types.rs.
#![tactic(auto)]

ghost use Rattle.std.specs.Prelude.{◌≡◌, ◌+◌, ◌≤◌, length};
ghost use Rattle.meaning.specs.Bytes.{or_empty};
ghost use Rattle.meaning.specs.Limits.{item_count, spec_count};
ghost use Rattle.meaning.specs.Number.{text_bytes};
ghost use Rattle.meaning.specs.Rows.{destination_bytes, row_bytes};
ghost use Rattle.buffer.specs.Splice.{RoomFor, Puts};
ghost use Rattle.matcher.specs.Matching.{row_text_meant, RowTextWithin};
ghost use Rattle.row.specs.Rows.{ShortTexts, RowWithin, kind_number, row_of_ends, row_numbers, text_most, row_most};

use matcher::types::{Ends, RowText};
use row_text::{put_row_text, row_text_size};

// What the source of a row is.
#[derive(Clone, Copy)]
pub enum Kind {
    // A name.
    Name,
    // An object id.
    Object,
}

impl Kind {
    // The number of the source kind.
    pub fn number(self) -> usize
        ensures { result ≡ kind_number self }
    {
        match self {
            Kind::Name => 0,
            Kind::Object => 1,
        }
    }
}

// The numbers that a row begins with: its item number plus 1 or 0, its spec number and its source kind.
#[derive(Clone, Copy)]
pub struct Numbers {
    pub item: usize,
    pub spec: usize,
    pub kind: Kind,
}

// How many bytes a source takes, its length before it.
fn source_size(specs: &[u8], name: &[u8], source: RowText) -> usize
    requires { ShortTexts specs.now name.now × RowTextWithin (length specs.now) (length name.now) source }
    ensures { (result ≡ length (text_bytes (or_empty (row_text_meant specs.now name.now source)))) × (result ≤ text_most) }
{
    let n = row_text_size(specs, name, source);
    number::size(n) + n
}

// How many bytes a destination takes: its length plus 1 before it, or 0 alone where there is none.
fn destination_size(specs: &[u8], name: &[u8], destination: RowText) -> usize
    requires { ShortTexts specs.now name.now × RowTextWithin (length specs.now) (length name.now) destination }
    ensures { (result ≡ length (destination_bytes (row_text_meant specs.now name.now destination))) × (result ≤ text_most) }
{
    match destination {
        RowText::Absent => 1,
        _ => {
            let n = row_text_size(specs, name, destination);
            number::size(n + 1) + n
        }
    }
}

// How many bytes a row has: its numbers, and the texts of both ends.
pub fn row_size(specs: &[u8], name: &[u8], numbers: Numbers, ends: Ends) -> usize
    requires { ShortTexts specs.now name.now × RowWithin (length specs.now) (length name.now) numbers ends }
    ensures { (result ≡ length (row_bytes (row_of_ends specs.now name.now numbers ends))) × (result ≤ row_most) }
{
    number::size(numbers.item)
        + number::size(numbers.spec)
        + number::size(numbers.kind.number())
        + source_size(specs, name, ends.source)
        + destination_size(specs, name, ends.destination)
}

// Writes the three numbers that a row begins with, and answers the place after them.
fn put_numbers(out: &mut [u8], at: usize, numbers: Numbers) -> usize
    requires { (numbers.item ≤ item_count) × (numbers.spec ≤ spec_count) × RoomFor out.old at (row_numbers numbers) }
    ensures { Puts out.old at (row_numbers numbers) out.new result }
{
    let i = number::put(out, at, numbers.item);
    let j = number::put(out, i, numbers.spec);
    number::put(out, j, numbers.kind.number())
}

// Writes a source, its length before it, and answers the place after it.
fn put_source(out: &mut [u8], at: usize, specs: &[u8], name: &[u8], source: RowText) -> usize
    requires { ShortTexts specs.now name.now × RowTextWithin (length specs.now) (length name.now) source × RoomFor out.old at (text_bytes (or_empty (row_text_meant specs.now name.now source))) }
    ensures { Puts out.old at (text_bytes (or_empty (row_text_meant specs.now name.now source))) out.new result }
{
    let n = row_text_size(specs, name, source);
    let i = number::put(out, at, n);
    put_row_text(out, i, specs, name, source)
}

// Writes a destination, and answers the place after it.
fn put_destination(
    out: &mut [u8],
    at: usize,
    specs: &[u8],
    name: &[u8],
    destination: RowText,
) -> usize
    requires { ShortTexts specs.now name.now × RowTextWithin (length specs.now) (length name.now) destination × RoomFor out.old at (destination_bytes (row_text_meant specs.now name.now destination)) }
    ensures { Puts out.old at (destination_bytes (row_text_meant specs.now name.now destination)) out.new result }
{
    match destination {
        RowText::Absent => number::put(out, at, 0),
        _ => {
            let n = row_text_size(specs, name, destination);
            let i = number::put(out, at, n + 1);
            put_row_text(out, i, specs, name, destination)
        }
    }
}

// Writes a row, and answers the place after it. Inlined, so that its ends are not put together in memory first.
#[inline(always)]
pub fn put_row(
    out: &mut [u8],
    at: usize,
    specs: &[u8],
    name: &[u8],
    numbers: Numbers,
    ends: Ends,
) -> usize
    requires { ShortTexts specs.now name.now × RowWithin (length specs.now) (length name.now) numbers ends × RoomFor out.old at (row_bytes (row_of_ends specs.now name.now numbers ends)) }
    ensures { Puts out.old at (row_bytes (row_of_ends specs.now name.now numbers ends)) out.new result }
{
    let i = put_numbers(out, at, numbers);
    let j = put_source(out, i, specs, name, ends.source);
    put_destination(out, j, specs, name, ends.destination)
}
