// The texts that a match makes: how many bytes they have, and writing them. Port of `to_bstr_replace` in the crate's match_group/util.rs.
#![tactic(auto)]

ghost use Rattle.std.specs.Prelude.{◌≡◌, ◌+◌, ◌≤◌, length};
ghost use Rattle.meaning.specs.Bytes.{or_empty};
ghost use Rattle.meaning.specs.Limits.{spec_list_bytes, name_bytes};
ghost use Rattle.buffer.specs.Splice.{splice, RoomFor, Puts};
ghost use Rattle.parse.specs.Places.{part_at, Within};
ghost use Rattle.refspec.specs.Instructions.{side_text};
ghost use Rattle.matcher.specs.Matching.{led_text, filled_text, FilledWithin, row_text_meant, RowTextWithin};
ghost use Rattle.row_text.specs.Leads.{row_text_most};

use matcher::types::{Filled, Lead, RowText};
use parse::types::Side;
use refspec::side::text_of;

// How many bytes a text has that a match makes; an absent one has none.
pub fn row_text_size(specs: &[u8], name: &[u8], made: RowText) -> usize
    requires { RowTextWithin (length specs.now) (length name.now) made × (length specs.now ≤ spec_list_bytes) × (length name.now ≤ name_bytes) }
    ensures { (result ≡ length (or_empty (row_text_meant specs.now name.now made))) × (result ≤ row_text_most) }
{
    match made {
        RowText::Absent => 0,
        RowText::Name => name.len(),
        RowText::Led(lead, side) => lead.bytes().len() + text_of(specs, b"HEAD", side).len(),
        RowText::Filled(f) => f.start_len + f.len + f.end_len,
    }
}

// Writes the n bytes of s that begin at `from`, and answers the place after them. Mostly the end of a pattern has none.
fn put_part(out: &mut [u8], at: usize, s: &[u8], from: usize, n: usize) -> usize
    requires { (from + n ≤ length s.now) × RoomFor out.old at (part_at s.now from n) }
    ensures { Puts out.old at (part_at s.now from n) out.new result }
{
    if n == 0 {
        at
    } else {
        buffer::put(out, at, &s[from..from + n])
    }
}

// Writes a side that is led, and answers the place after it.
fn put_led(out: &mut [u8], at: usize, specs: &[u8], lead: Lead, side: Side) -> usize
    requires { Within (length specs.now) side × RoomFor out.old at (led_text lead (side_text specs.now side)) }
    ensures { Puts out.old at (led_text lead (side_text specs.now side)) out.new result }
{
    let t = text_of(specs, b"HEAD", side);
    let i = buffer::put(out, at, lead.bytes());
    if lead.lowers() {
        buffer::put_lower(out, i, t)
    } else {
        buffer::put(out, i, t)
    }
}

// Writes a part of the specs, a part of the name and a part of the specs, and answers the place after them.
fn put_filled(out: &mut [u8], at: usize, specs: &[u8], name: &[u8], f: Filled) -> usize
    requires { FilledWithin (length specs.now) (length name.now) f × RoomFor out.old at (filled_text specs.now name.now f) }
    ensures { (out.new ≡ splice out.old at (filled_text specs.now name.now f))
        × (result ≡ at + length (filled_text specs.now name.now f)) }
{
    let i = put_part(out, at, specs, f.start, f.start_len);
    let j = put_part(out, i, name, f.from, f.len);
    put_part(out, j, specs, f.end, f.end_len)
}

// Writes the text that a match makes, and answers the place after it.
pub fn put_row_text(out: &mut [u8], at: usize, specs: &[u8], name: &[u8], made: RowText) -> usize
    requires { RowTextWithin (length specs.now) (length name.now) made × RoomFor out.old at (or_empty (row_text_meant specs.now name.now made)) }
    ensures { (out.new ≡ splice out.old at (or_empty (row_text_meant specs.now name.now made)))
        × (result ≡ at + length (or_empty (row_text_meant specs.now name.now made))) }
{
    match made {
        RowText::Absent => at,
        // A part is lent by its place and length: the slice `name`, just stored in two halves, is slow to load in one.
        RowText::Name => put_part(out, at, name, 0, name.len()),
        RowText::Led(lead, side) => put_led(out, at, specs, lead, side),
        RowText::Filled(f) => put_filled(out, at, specs, name, f),
    }
}
