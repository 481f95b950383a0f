// The text of a side as a slice.
ghost use Rattle.std.specs.Prelude.{◌≡◌, length};
ghost use Rattle.meaning.specs.Bytes.{bytes};
ghost use Rattle.parse.specs.Places.{Within};
ghost use Rattle.refspec.specs.Instructions.{side_text};

use parse::types::Side;

// The text of a side, no bytes where it is absent; `head` holds `HEAD`, which the specs do not spell.
pub fn text_of<'a>(specs: &'a [u8], head: &'a [u8], side: Side) -> &'a [u8]
    requires { Within (length specs.now) side × (head.now ≡ bytes "HEAD") }
    ensures { result.now ≡ side_text specs.now side }
{
    match side {
        Side::Absent => &specs[..0],
        Side::Part(at, n) => &specs[at..at + n],
        Side::Head => head,
    }
}
