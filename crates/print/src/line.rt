// The lines: the header, a row, and a refusal.
ghost use Rattle.std.specs.Prelude.{◌≡◌, ◌+◌, ◌≤◌, length, Option};
ghost use Rattle.std.proofs.Math.Option.{none};
ghost use Rattle.meaning.specs.Limits.{program_bytes, decimal_digits};
ghost use Rattle.meaning.specs.Spec.{refused};
ghost use Rattle.meaning.specs.Deliveries.{decimal, shown, shown_option, shown_item, shown_kind, row_line, header, output};
ghost use Rattle.buffer.specs.Splice.{splice, RoomFor, Puts};
ghost use Rattle.print.specs.Lines.{ended, with_tab, with_feed, line_start, shown_most, line_most, refusal_most, lent, lent_size, row_meant};

use super::decimal::{decimal_size, put_decimal};
use super::shown::{put_shown, shown_size};
use buffer::{put, put_byte};

// The header.
const HEADER: &[u8] = b"item\tspec\tkind\tsource\tdestination\n";

// A row that is printed: the numbers of its item, its spec and its kind, its source, and its destination, if it has one.
#[derive(Clone, Copy)]
pub struct Row<'a> {
    pub item: usize,
    pub spec: usize,
    // As it is: (a) a row list may have any number here, and an enum would ask of callers that they know it.
    pub kind: usize,
    pub source: &'a [u8],
    pub destination: Option<&'a [u8]>,
}

// How many bytes the header has.
#[tactic(auto, unfolding(meaning::specs::Deliveries::header))]
pub fn header_size() -> usize
    ensures { result ≡ length header }
{
    HEADER.len()
}

// Writes the header, and answers the place after it.
#[tactic(auto, unfolding(meaning::specs::Deliveries::header))]
pub fn put_header(out: &mut [u8], at: usize) -> usize
    requires { RoomFor out.old at header }
    ensures { Puts out.old at header out.new result }
{
    put(out, at, HEADER)
}

// Writes a number and the byte that ends its field, and answers the place after them.
// As it is: (d) `put_kind` and `put_text` end a field too, but one function of all three takes a closure, whose contract is longer than they are.
fn put_number(out: &mut [u8], at: usize, n: usize, end: u8) -> usize
    requires { RoomFor out.old at (ended end (decimal n)) }
    ensures { Puts out.old at (ended end (decimal n)) out.new result }
{
    let i = put_decimal(out, at, n);
    put_byte(out, i, end)
}

// How many bytes the item field has: the item's number from 0, or `-` where there is none.
fn item_size(item: usize) -> usize
    ensures { (result ≡ length (shown_item item)) × (result ≤ decimal_digits) }
{
    if item == 0 {
        return 1;
    }
    decimal_size(item - 1)
}

// Writes the item field and a tab, and answers the place after them.
#[tactic(auto, unfolding(crate::specs::Lines::ended))]
fn put_item(out: &mut [u8], at: usize, item: usize) -> usize
    requires { RoomFor out.old at (with_tab (shown_item item)) }
    ensures { Puts out.old at (with_tab (shown_item item)) out.new result }
{
    if item == 0 {
        return put(out, at, b"-\t");
    }
    put_number(out, at, item - 1, b'\t')
}

// The word for a kind.
// As it is: (a) a number, as in `Row`.
fn kind_word(kind: usize) -> &'static [u8]
    ensures { (result.now ≡ shown_kind kind) × (length result.now ≤ 6) }
{
    match kind {
        0 => b"name",
        _ => b"object",
    }
}

// Writes the word for a kind and a tab, and answers the place after them.
// As it is: (a) a number, as in `Row`.
fn put_kind(out: &mut [u8], at: usize, kind: usize) -> usize
    requires { RoomFor out.old at (with_tab (shown_kind kind)) }
    ensures { Puts out.old at (with_tab (shown_kind kind)) out.new result }
{
    let i = put(out, at, kind_word(kind));
    put_byte(out, i, b'\t')
}

// Writes item, spec and kind, and answers the place after them.
// As it is: (a) the kind is a number, as in `Row`.
fn put_start(out: &mut [u8], at: usize, item: usize, spec: usize, kind: usize) -> usize
    requires { RoomFor out.old at (line_start item spec kind) }
    ensures { Puts out.old at (line_start item spec kind) out.new result }
{
    let i = put_item(out, at, item);
    let j = put_number(out, i, spec, b'\t');
    put_kind(out, j, kind)
}

// Writes a text and the byte that ends its field, and answers the place after them.
fn put_text(out: &mut [u8], at: usize, t: &[u8], end: u8) -> usize
    requires { RoomFor out.old at (ended end (shown t.now)) }
    ensures { Puts out.old at (ended end (shown t.now)) out.new result }
{
    let i = put_shown(out, at, t);
    put_byte(out, i, end)
}

// How many bytes the destination has; `-` where there is none.
fn destination_size(destination: Option<&[u8]>) -> usize
    requires { lent_size destination ≤ program_bytes }
    ensures { (result ≡ length (shown_option (lent destination.entry))) × (result ≤ shown_most) }
{
    match destination {
        Some(t) => shown_size(t),
        None => 1,
    }
}

// Writes the destination and a line feed, and answers the place after them.
#[tactic(auto, unfolding(crate::specs::Lines::ended))]
fn put_destination(out: &mut [u8], at: usize, destination: Option<&[u8]>) -> usize
    requires { RoomFor out.old at (with_feed (shown_option (lent destination))) }
    ensures { Puts out.old at (with_feed (shown_option (lent destination.entry))) out.new result }
{
    match destination {
        Some(t) => put_text(out, at, t, b'\n'),
        None => put(out, at, b"-\n"),
    }
}

impl<'a> Row<'a> {
    // How many bytes its line has.
    pub fn line_size(self) -> usize
        requires { (length self.source.now ≤ program_bytes) × (lent_size self.destination ≤ program_bytes) }
        ensures { (result ≡ length (row_line (row_meant self.entry))) × (result ≤ line_most) }
    {
        let numbers = item_size(self.item) + decimal_size(self.spec) + kind_word(self.kind).len();
        let texts = shown_size(self.source) + destination_size(self.destination);
        numbers + texts + 5
    }

    // Writes its line, and answers the place after it.
    pub fn put_line(self, out: &mut [u8], at: usize) -> usize
        requires { RoomFor out.old at (row_line (row_meant self)) }
        ensures { Puts out.old at (row_line (row_meant self.entry)) out.new result }
    {
        let i = put_start(out, at, self.item, self.spec, self.kind);
        let j = put_text(out, i, self.source, b'\t');
        put_destination(out, j, self.destination)
    }
}

// Writes the line of a refusal at the start of the buffer, and answers its length.
pub fn put_refusal(out: &mut [u8], n: u64) -> usize
    requires { refusal_most ≤ length out.old }
    ensures { (out.new ≡ splice out.old 0 (output (refused n none))) × (result ≡ length (output (refused n none))) }
{
    let i = put(out, 0, b"refused ");
    // As it is: (d) a number of 64 bits has no From to `usize`, and `try_from` may fail.
    put_number(out, i, n as usize, b'\n')
}
