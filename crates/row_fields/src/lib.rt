//! What stands at a place of a row list: the fields of the row that begins there.
#![tactic(auto)]

ghost use Rattle.std.specs.Prelude.{◌≡◌, ◌-◌, ◌≤◌, length, drop};
ghost use Rattle.meaning.specs.Number.{number_bytes};
ghost use Rattle.meaning.specs.Rows.{destination_after, read_destination, read_front};
ghost use Rattle.row_fields.specs.Fields.{front_at, FrontSays, DestinationSays};
ghost use Rattle.row_fields.specs.Stages.{destination_in, StretchSpells};

use list::cursor::{Cursor, Record};
use list::stretch::Stretch;
use parse::types::Side;

// A row: its numbers, its source as a place in the list, and its destination, which may be absent.
// As it is: (d) the kind is what the list says, which no question has passed yet; one that is neither 0 nor 1 is refused above this crate.
#[derive(Clone, Copy)]
pub struct RowPlace {
    pub item: usize,
    pub spec: usize,
    pub kind: usize,
    pub src: Stretch,
    pub dst: Side,
}

// The destination whose number is n, read on after it, at `at`; it is absent or a part of the list.
fn destination_after(s: &[u8], at: usize, n: usize) -> Option<Record<Side>>
    requires { (at ≤ length s.now) × (length (number_bytes n) ≤ at) }
    ensures { DestinationSays s.now (at - length (number_bytes n)) (destination_after n (drop at s.now)) result }
{
    if n == 0 {
        return Some(Record {
            value: Side::Absent,
            next: Cursor { at },
        });
    }
    let len = n - 1;
    if s.len() - at < len {
        return None;
    }
    Some(Record {
        value: Side::Part(at, len),
        next: Cursor { at: at + len },
    })
}

// The destination whose number stands at a place, if it is well formed. Inlined with the reading of a row.
#[inline(always)]
fn read_destination(s: &[u8], at: usize) -> Option<Record<Side>>
    ensures { DestinationSays s.now at (read_destination (drop at s.now)) result }
{
    let n = number::read(s, at)?;
    destination_after(s, n.next, n.value)
}

// The fields of the row that begins at a place, if it is well formed. Inlined, so that whoever asks for one of them passes over the others.
#[inline(always)]
pub fn read_front(s: &[u8], at: usize) -> Option<Record<RowPlace>>
    ensures { (result ≡ front_at s.now at) × FrontSays s.now (read_front (drop at s.now)) result }
{
    let item = number::read(s, at)?;
    let spec = number::read(s, item.next)?;
    let kind = number::read(s, spec.next)?;
    let source = Cursor { at: kind.next };
    let src = source.next(s).ok()??;
    let dst = read_destination(s, src.next.at)?;
    Some(Record {
        value: RowPlace {
            item: item.value,
            spec: spec.value,
            kind: kind.value,
            src: src.value,
            dst: dst.value,
        },
        next: dst.next,
    })
}

// The destination of the row that begins at a place; no bytes where it is absent, or no row is well formed there.
pub fn destination_at(s: &[u8], at: usize) -> Stretch
    ensures { StretchSpells s.now (destination_in (read_front (drop at s.now))) result }
{
    let nowhere = Stretch { at: 0, len: 0 };
    let Some(r) = read_front(s, at) else {
        return nowhere;
    };
    match r.value.dst {
        Side::Part(at, len) => Stretch { at, len },
        Side::Absent | Side::Head => nowhere,
    }
}
