// One spec on one name: how many bytes its row takes, unless a negative removes it, and writing a row that is known to stand. Port of what
// `match_lhs` and `match_rhs` do with one spec and one item in the crate's match_group/mod.rs.
#![tactic(auto)]

ghost use Rattle.std.specs.Prelude.{◌≡◌, ◌+◌, ◌≤◌, ◌<◌, length};
ghost use Rattle.meaning.specs.Limits.{item_count, spec_count, name_bytes};
ghost use Rattle.negatives.specs.Negatives.{excluded_by};
ghost use Rattle.row.specs.Rows.{row_most};
ghost use Rattle.match_row.specs.Pairs.{matcher_spec, item_bytes, object_bytes, field_numbers, field_bytes};
ghost use Rattle.buffer.specs.Splice.{RoomFor, Puts};
ghost use Rattle.match_row.specs.Asking.{Askable, MatcherReady, FieldTold};

pub mod direction;
mod gone;

use direction::Direction;
use gone::removed;
use match_one::object;
use matcher::types::{Ends, Matcher};
use row::{Kind, Numbers, put_row, row_size};

// The numbers of a row of spec i with this item field: 0 stands for no item, and the source is then an object.
fn numbers(i: usize, field: usize) -> Numbers
    ensures { result ≡ field_numbers i field }
{
    let kind = if field == 0 { Kind::Object } else { Kind::Name };
    Numbers {
        item: field,
        spec: i,
        kind,
    }
}

// How many bytes item j takes under spec i.
pub fn item_size<D: Direction>(
    specs: &[u8],
    m: Matcher,
    i: usize,
    j: usize,
    name: &[u8],
    negatives: &[u16],
    count: usize,
) -> usize
    requires { MatcherReady specs.now m × Askable specs.now negatives.now count × (i ≤ spec_count) × (j < item_count) × (length name.now ≤ name_bytes) }
    ensures { (result ≡ length (item_bytes D.back (excluded_by specs.now negatives.now count) i j name.now (matcher_spec specs.now m))) × (result ≤ row_most) }
{
    // Most names are not matched, and no ends are made of these.
    let Some(c) = D::hit(specs, m, name) else {
        return 0;
    };
    let e = D::made(specs, m, c);
    if removed(specs, name, e.source, negatives, count) {
        return 0;
    }
    row_size(specs, name, numbers(i, j + 1), e)
}

// How many bytes the row of spec i takes as an object source; any other spec has none.
pub fn object_size(specs: &[u8], m: Matcher, i: usize) -> usize
    requires { MatcherReady specs.now m × (i ≤ spec_count) }
    ensures { (result ≡ length (object_bytes i (matcher_spec specs.now m))) × (result ≤ row_most) }
{
    match object(specs, m) {
        None => 0,
        Some(e) => row_size(specs, &[], numbers(i, 0), e),
    }
}

// The ends of the row with this item field, of a name of n bytes that has one.
fn field_ends<D: Direction>(specs: &[u8], m: Matcher, field: usize, n: usize) -> Option<Ends>
    requires { MatcherReady specs.now m × (n ≤ name_bytes) × (field ≡ 0 → n ≡ 0) }
    ensures { FieldTold D.back specs.now m field n result }
{
    if field == 0 {
        object(specs, m)
    } else {
        D::known_ends(specs, m, n)
    }
}

// Writes the row of spec i with this item field, which there is, and answers the place after it.
pub fn put_field<D: Direction>(
    out: &mut [u8],
    at: usize,
    specs: &[u8],
    m: Matcher,
    i: usize,
    field: usize,
    name: &[u8],
) -> usize
    requires { MatcherReady specs.now m × (i ≤ spec_count) × (field ≤ item_count) × (length name.now ≤ name_bytes) × (field ≡ 0 → length name.now ≡ 0) × (0 < length (field_bytes D.back i field name.now (matcher_spec specs.now m))) × RoomFor out.old at (field_bytes D.back i field name.now (matcher_spec specs.now m)) }
    ensures { Puts out.old at (field_bytes D.back i field name.now (matcher_spec specs.now m)) out.new result }
{
    match field_ends::<D>(specs, m, field, name.len()) {
        None => at,
        Some(e) => put_row(out, at, specs, name, numbers(i, field), e),
    }
}
