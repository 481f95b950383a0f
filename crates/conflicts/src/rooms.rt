// Room for an index on the stack: small for few rows, so that these take little stack and little is cleared, and as much as the longest
// list needs. The scratch of a sort has half as much.
ghost use Rattle.std.specs.Prelude.{◌≡◌, ◌+◌, ◌*◌, ◌≤◌, length};
ghost use Rattle.meaning.specs.Limits.{row_list_bytes};
ghost use Rattle.row_list.specs.Lists.{rows_in, RowsRead};
ghost use Rattle.conflicts.specs.ConflictBytes.{conflicts_bytes, put_if_room};

use super::index::put_indexed;
use limits::ROW_LIST_BYTES;

// How many rows a small and a larger index have room for.
pub(crate) const FEW: usize = 1024;

pub(crate) const SOME: usize = 16384;

// The fewest bytes of a row.
const ROW_LEAST: usize = 5;

// More rows than any list has.
pub(crate) const MANY: usize = ROW_LIST_BYTES / ROW_LEAST + 1;

pub(crate) const HALF_FEW: usize = FEW / 2;

pub(crate) const HALF_SOME: usize = SOME / 2;

pub(crate) const HALF_MANY: usize = MANY / 2;

// The conflicts of a list of at most N rows, of which M are half. Not inlined, so that each index is in a frame of its own: in one frame,
// every list would take the stack of the longest.
// As it is: (a) there is no heap, so both are arrays.
#[inline(never)]
pub(crate) fn put_in_room<const N: usize, const M: usize>(
    out: &mut [u8],
    rows: &[u8],
    specs: usize,
) -> usize
    requires { RowsRead specs rows.now × (length (rows_in specs rows.now) ≤ N) × (N ≤ row_list_bytes) × (N ≤ 2 * M + 1) × (M ≤ N) }
    ensures { (result ≡ length (conflicts_bytes (rows_in specs rows.now))) × (out.new ≡ put_if_room out.old (conflicts_bytes (rows_in specs rows.now))) }
{
    let mut index = [0u32; N];
    let mut scratch = [0u32; M];
    put_indexed(out, rows, specs, &mut index, &mut scratch)
}
