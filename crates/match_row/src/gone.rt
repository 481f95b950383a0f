// Whether a negative removes a row, by the source of the row.
ghost use Rattle.std.specs.Prelude.{◌≡◌, ◌≤◌, length};
ghost use Rattle.meaning.specs.Bytes.{or_empty};
ghost use Rattle.meaning.specs.Limits.{mapped_bytes};
ghost use Rattle.matcher.specs.Matching.{led_text, filled_text, row_text_meant, RowTextWithin, FilledWithin};
ghost use Rattle.parse.specs.Places.{Within};
ghost use Rattle.refspec.specs.Instructions.{side_text};
ghost use Rattle.negatives.specs.Negatives.{excluded_by};
ghost use Rattle.row.specs.Rows.{ShortTexts};
ghost use Rattle.match_row.specs.Asking.{Askable};

use limits::MAPPED_BYTES;
use matcher::types::{Filled, Lead, RowText};
use negatives::{excluded, excluded_pieces};
use parse::types::Side;
use refspec::side::text_of;
use row_text::{put_row_text, row_text_size};

// A negative matches a source that is put together in `scratch`.
fn put_removed(
    specs: &[u8],
    name: &[u8],
    source: RowText,
    negatives: &[u16],
    count: usize,
    scratch: &mut [u8],
) -> bool
    requires { ShortTexts specs.now name.now × RowTextWithin (length specs.now) (length name.now) source × Askable specs.now negatives.now count × (length (or_empty (row_text_meant specs.now name.now source)) ≤ length scratch.old) }
    ensures { result ≡ excluded_by specs.now negatives.now count (or_empty (row_text_meant specs.now name.now source)) }
{
    let n = row_text_size(specs, name, source);
    put_row_text(scratch, 0, specs, name, source);
    excluded(specs, negatives, count, &scratch[..n])
}

// A negative matches a source that stands nowhere in one piece and in no three.
fn text_removed(specs: &[u8], name: &[u8], source: RowText, negatives: &[u16], count: usize) -> bool
    requires { ShortTexts specs.now name.now × RowTextWithin (length specs.now) (length name.now) source × Askable specs.now negatives.now count × (length (or_empty (row_text_meant specs.now name.now source)) ≤ mapped_bytes) }
    ensures { result ≡ excluded_by specs.now negatives.now count (or_empty (row_text_meant specs.now name.now source)) }
{
    // As it is: (a) no heap, so there is room for the longest source.
    let mut scratch = [0; MAPPED_BYTES];
    put_removed(specs, name, source, negatives, count, &mut scratch)
}

// A negative matches a side that is led; one that stands as it is is not copied.
fn led_removed(
    specs: &[u8],
    name: &[u8],
    lead: Lead,
    side: Side,
    negatives: &[u16],
    count: usize,
) -> bool
    requires { ShortTexts specs.now name.now × Within (length specs.now) side × Askable specs.now negatives.now count × (length (led_text lead (side_text specs.now side)) ≤ mapped_bytes) }
    ensures { result ≡ excluded_by specs.now negatives.now count (led_text lead (side_text specs.now side)) }
{
    match lead {
        Lead::AsIs => excluded(specs, negatives, count, text_of(specs, b"HEAD", side)),
        _ => text_removed(specs, name, RowText::Led(lead, side), negatives, count),
    }
}

// A negative matches a pattern with a capture in place of its star, piece by piece.
fn filled_removed(specs: &[u8], name: &[u8], f: Filled, negatives: &[u16], count: usize) -> bool
    requires { FilledWithin (length specs.now) (length name.now) f × ShortTexts specs.now name.now × Askable specs.now negatives.now count }
    ensures { result ≡ excluded_by specs.now negatives.now count (filled_text specs.now name.now f) }
{
    excluded_pieces(
        specs,
        negatives,
        count,
        &specs[f.start..f.start + f.start_len],
        &name[f.from..f.from + f.len],
        &specs[f.end..f.end + f.end_len],
    )
}

// A negative matches the source of a row. Inlined: most groups have none.
#[inline(always)]
pub(crate) fn removed(
    specs: &[u8],
    name: &[u8],
    source: RowText,
    negatives: &[u16],
    count: usize,
) -> bool
    requires { ShortTexts specs.now name.now × RowTextWithin (length specs.now) (length name.now) source × Askable specs.now negatives.now count × (length (or_empty (row_text_meant specs.now name.now source)) ≤ mapped_bytes) }
    ensures { result ≡ excluded_by specs.now negatives.now count (or_empty (row_text_meant specs.now name.now source)) }
{
    if count == 0 {
        return false;
    }
    match source {
        RowText::Name => excluded(specs, negatives, count, name),
        RowText::Filled(f) => filled_removed(specs, name, f, negatives, count),
        RowText::Led(lead, side) => led_removed(specs, name, lead, side, negatives, count),
        RowText::Absent => excluded(specs, negatives, count, &specs[..0]),
    }
}
