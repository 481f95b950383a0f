// One text of a prefix list: a name in the spec list, in a frame.
ghost use Rattle.std.specs.Prelude.{◌≡◌, ◌+◌, ◌≤◌, length};
ghost use Rattle.meaning.specs.Bytes.{same};
ghost use Rattle.meaning.specs.Limits.{spec_list_bytes};
ghost use Rattle.meaning.specs.Number.{text_bytes};
ghost use Rattle.buffer.specs.Splice.{splice, RoomFor, Puts};
ghost use Rattle.frames.specs.Frames.{longest_frame};
ghost use Rattle.prefixes.specs.Table.{blank, entry_text, side_entry, EntryWithin};

use frames::{FRAMES, is_candidate, put_candidate, put_record, record_size};
use list::stretch::Stretch;
use parse::types::Side;

// A text: a frame's number, and where the name in it stands. A number past the last frame's is `HEAD`.
// As it is: (a) an enum with a case for `HEAD` has a word more, so that the table of a group's texts takes a third more of the stack.
#[derive(Clone, Copy)]
pub(crate) struct Entry {
    pub frame: usize,
    pub name: Stretch,
}

impl From<Side> for Entry {
    ghost from_gives = { λ s e. e ≡ side_entry s };

    // The entry whose text is that of a side.
    fn from(side: Side) -> Entry {
        match side {
            Side::Absent => Entry::empty(),
            Side::Part(at, len) => Entry {
                frame: 0,
                name: Stretch { at, len },
            },
            Side::Head => Entry {
                frame: FRAMES,
                name: Stretch { at: 0, len: 0 },
            },
        }
    }
}

impl Entry {
    // The entry of the text without bytes.
    pub(crate) fn empty() -> Entry
        ensures { result ≡ blank }
    {
        Entry {
            frame: 0,
            name: Stretch { at: 0, len: 0 },
        }
    }

    // How many bytes the text takes as a record.
    pub(crate) fn size(self, specs: &[u8]) -> usize
        requires { EntryWithin (length specs.now) self × (length specs.now ≤ spec_list_bytes) }
        ensures { result ≡ length (text_bytes (entry_text specs.now self)) }
    {
        if self.frame < FRAMES {
            record_size(self.frame, self.name.of(specs))
        } else {
            5
        }
    }

    // The text as a record, written from i on; the place after it.
    pub(crate) fn put(self, out: &mut [u8], i: usize, specs: &[u8]) -> usize
        requires { EntryWithin (length specs.now) self × (length specs.now ≤ spec_list_bytes) × RoomFor out.old i (text_bytes (entry_text specs.now self)) }
        ensures { Puts out.old i (text_bytes (entry_text specs.now self)) out.new result }
    {
        if self.frame < FRAMES {
            put_record(out, i, self.frame, self.name.of(specs))
        } else {
            buffer::put(out, i, b"\x04HEAD")
        }
    }

    // The text, written at the start of the buffer; how many bytes it has.
    pub(crate) fn spell(self, out: &mut [u8], specs: &[u8]) -> usize
        requires { EntryWithin (length specs.now) self × (length specs.now + longest_frame ≤ length out.old) }
        ensures { (out.new ≡ splice out.old 0 (entry_text specs.now self)) × (result ≡ length (entry_text specs.now self)) }
    {
        if self.frame < FRAMES {
            put_candidate(out, 0, self.frame, self.name.of(specs))
        } else {
            buffer::put(out, 0, b"HEAD")
        }
    }

    // t is the text.
    pub(crate) fn is(self, specs: &[u8], t: &[u8]) -> bool
        requires { EntryWithin (length specs.now) self }
        ensures { result ≡ same t.now (entry_text specs.now self) }
    {
        if self.frame < FRAMES {
            is_candidate(self.frame, self.name.of(specs), t)
        } else {
            compare::same(t, b"HEAD")
        }
    }
}
