// The fields of the row that begins at a place. Where no row is well formed, they are those of one without anything.
ghost use Rattle.std.specs.Prelude.{◌≡◌};
ghost use Rattle.parse.specs.declared.types.Side.TheVariants.{Absent};
ghost use Rattle.keys.specs.Keys.{row_at, Finds};

use list::stretch::Stretch;
use parse::types::Side;
use row_fields::{RowPlace, read_front};

// The fields of a row without anything.
fn nothing() -> RowPlace
    ensures { result ≡ record { item = 0; spec = 0; kind = 0; src = record { at = 0; len = 0 }; dst = Absent } }
{
    RowPlace {
        item: 0,
        spec: 0,
        kind: 0,
        src: Stretch { at: 0, len: 0 },
        dst: Side::Absent,
    }
}

// The fields of the row that begins at a place.
pub fn fields(s: &[u8], at: usize) -> RowPlace
    ensures { Finds s.now (row_at s.now at) result }
{
    match read_front(s, at) {
        Some(r) => r.value,
        None => nothing(),
    }
}
