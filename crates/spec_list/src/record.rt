// A spec of a group in fourteen bytes, so that the table of a list is soon cleared and copied: its mode, and each side as three numbers.
ghost use Rattle.std.specs.Prelude.{◌≡◌};
ghost use Rattle.meaning.specs.Limits.{spec_list_bytes};
ghost use Rattle.parse.specs.Places.{SidesWithin};
ghost use Rattle.spec_list.specs.Table.{spec_from_record};

use parse::types::{Mode, RefSpec};
use sides::SideNumbers;

// A spec record: its mode, and where each side stands in the list.
#[derive(Clone, Copy)]
pub struct SpecRecord {
    pub mode: Mode,
    pub src: SideNumbers,
    pub dst: SideNumbers,
}

// The record of a spec.
pub(crate) fn record_of(r: RefSpec) -> SpecRecord
    requires { SidesWithin spec_list_bytes r }
    ensures { spec_from_record result ≡ r }
{
    SpecRecord {
        mode: r.mode,
        src: SideNumbers::of(r.src),
        dst: SideNumbers::of(r.dst),
    }
}

// The spec of a record.
pub fn spec_from(r: SpecRecord) -> RefSpec
    ensures { result ≡ spec_from_record r }
{
    RefSpec {
        mode: r.mode,
        src: r.src.side(),
        dst: r.dst.side(),
    }
}
