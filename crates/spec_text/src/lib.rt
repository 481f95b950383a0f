// The text of a side: how many bytes it has, and writing it.
#![tactic(auto)]

ghost use Rattle.std.specs.Prelude.{◌≡◌, ◌+◌, ◌≤◌, length};
ghost use Rattle.meaning.specs.Limits.{spec_bytes};
ghost use Rattle.buffer.specs.Splice.{RoomFor, Puts};
ghost use Rattle.parse.specs.Places.{Within};
ghost use Rattle.refspec.specs.Instructions.{side_text};

use parse::types::Side;

// How many bytes the text of a side has.
pub fn side_size(spec: &[u8], side: Side) -> usize
    requires { Within (length spec.now) side × (length spec.now ≤ spec_bytes) }
    ensures { (result ≡ length (side_text spec.now side)) × (result ≤ spec_bytes) }
{
    match side {
        Side::Absent => 0,
        Side::Part(_, n) => n,
        Side::Head => 4,
    }
}

// Writes the text of a side, and answers the place after it.
pub fn put_side(out: &mut [u8], at: usize, spec: &[u8], side: Side) -> usize
    requires { Within (length spec.now) side × RoomFor out.old at (side_text spec.now side) }
    ensures { Puts out.old at (side_text spec.now side) out.new result }
{
    match side {
        Side::Absent => at,
        Side::Part(from, n) => buffer::put(out, at, &spec[from..from + n]),
        Side::Head => buffer::put(out, at, b"HEAD"),
    }
}
