// A table of distinct texts, as entries.
ghost use Rattle.std.specs.Prelude.{◌≡◌, [], ◌∷◌, ◌+◌, ◌≤◌, ◌<◌, length, take};
ghost use Rattle.meaning.specs.Bytes.{any, same};
ghost use Rattle.meaning.specs.Limits.{spec_list_bytes};
ghost use Rattle.meaning.specs.Number.{record_bytes};
ghost use Rattle.buffer.specs.Splice.{splice};
ghost use Rattle.frames.specs.Frames.{longest_frame};
ghost use Rattle.prefixes.specs.Group.{texts_most};
ghost use Rattle.prefixes.specs.Table.{entry_text, table_texts, EntryWithin, Entries, Entered};

use super::entry::Entry;

// A text stands in a table.
fn has(specs: &[u8], table: &[Entry], t: &[u8]) -> bool
    requires { Entries (length specs.now) table.now }
    ensures { result ≡ any (same t.now) (table_texts specs.now table.now) }
{
    for e in table {
        if e.is(specs, t) {
            return true;
        }
    }
    false
}

// Enters the text of an entry after `count` others into a table, unless it stands there; how many entries it has then. The text is spelt
// in `scratch`.
pub(crate) fn add(
    specs: &[u8],
    table: &mut [Entry],
    count: usize,
    scratch: &mut [u8],
    e: Entry,
) -> usize
    requires { Entries (length specs.now) (take count table.old) × EntryWithin (length specs.now) e × (count < length table.old) × (length specs.now + longest_frame ≤ length scratch.old) }
    ensures { Entered specs.now (entry_text specs.now e ∷ []) table.old count table.new result }
{
    let end = e.spell(scratch, specs);
    if has(specs, &table[..count], &scratch[..end]) {
        return count;
    }
    table[count] = e;
    count + 1
}

// How many bytes the texts of a table take as a prefix list.
pub(crate) fn table_size(specs: &[u8], table: &[Entry]) -> usize
    requires { Entries (length specs.now) table.now × (length specs.now ≤ spec_list_bytes) × (length table.now ≤ texts_most) }
    ensures { result ≡ length (record_bytes (table_texts specs.now table.now)) }
{
    let mut size = 0;
    for e in table {
        size += e.size(specs);
    }
    size
}

// Writes the texts of a table as a prefix list at the start of the buffer.
pub(crate) fn put_table(out: &mut [u8], specs: &[u8], table: &[Entry])
    requires { Entries (length specs.now) table.now × (length specs.now ≤ spec_list_bytes) × (length (record_bytes (table_texts specs.now table.now)) ≤ length out.old) }
    ensures { out.new ≡ splice out.old 0 (record_bytes (table_texts specs.now table.now)) }
{
    let mut at = 0;
    for e in table {
        at = e.put(out, at, specs);
    }
}
