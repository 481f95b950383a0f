//! The conflicts of a row list that was read: destinations on which two rows put different sources. Measured, then written. Port of the
//! crate's match_group/validate.rs, whose map in order becomes an index of places, sorted by destination.
#![tactic(auto)]

ghost use Rattle.std.specs.Prelude.{◌≡◌, length};
ghost use Rattle.row_list.specs.Lists.{rows_in, RowsRead};
ghost use Rattle.conflicts.specs.ConflictBytes.{conflicts_bytes, put_if_room};

mod index;
mod rooms;

use rooms::{FEW, HALF_FEW, HALF_MANY, HALF_SOME, MANY, SOME, put_in_room};

// Writes the conflicts of a list of so many rows at the start of a buffer that has room for them, and answers how many bytes they take; 0
// where there is none.
pub fn put_conflicts(out: &mut [u8], rows: &[u8], specs: usize, count: usize) -> usize
    requires { RowsRead specs rows.now × (count ≡ length (rows_in specs rows.now)) }
    ensures { (result ≡ length (conflicts_bytes (rows_in specs rows.now))) × (out.new ≡ put_if_room out.old (conflicts_bytes (rows_in specs rows.now))) }
{
    if count <= FEW {
        put_in_room::<FEW, HALF_FEW>(out, rows, specs)
    } else if count <= SOME {
        put_in_room::<SOME, HALF_SOME>(out, rows, specs)
    } else {
        put_in_room::<MANY, HALF_MANY>(out, rows, specs)
    }
}
