// A side of a spec as three numbers of 16 bits, so that a table of specs is small: which side it is, where it begins, and how many bytes it
// has there.
#![tactic(auto)]

ghost use Rattle.std.specs.Prelude.{◌≡◌, ◌≤◌};
ghost use Rattle.meaning.specs.Limits.{spec_list_bytes};
ghost use Rattle.parse.specs.Places.{Within};
ghost use Rattle.sides.specs.Numbers.{side_from, side_kind, side_at, side_len};
ghost use Rattle.sides.specs.Sides.{numbers_of, side_of};

use parse::types::Side;

// Which side it is, where it begins, and how many bytes it has.
#[derive(Clone, Copy, Debug, PartialEq, Eq)]
pub struct SideNumbers {
    pub kind: u16,
    pub at: u16,
    pub len: u16,
}

impl SideNumbers {
    // The numbers of a side, which tell it again.
    pub fn of(side: Side) -> Self
        requires { Within spec_list_bytes side }
        ensures { (result ≡ numbers_of side) × (side_of result ≡ side) }
    {
        SideNumbers {
            kind: side_kind(side),
            at: side_at(side),
            len: side_len(side),
        }
    }

    // The side that they tell.
    pub fn side(self) -> Side
        ensures { result ≡ side_of self }
    {
        side_from(self.kind, wide(self.at), wide(self.len))
    }
}

// A place in a spec list as a number of a table.
pub fn narrow(n: usize) -> u16
    requires { n ≤ spec_list_bytes }
    ensures { result ≡ n }
{
    n as u16
}

// A number of a table as a place.
pub fn wide(n: u16) -> usize
    ensures { result ≡ n }
{
    usize::from(n)
}

// Which side it is.
pub fn side_kind(side: Side) -> u16
    ensures { result ≡ side_kind side }
{
    match side {
        Side::Absent => 0,
        Side::Part(_, _) => 1,
        Side::Head => 2,
    }
}

// Where a side begins.
pub fn side_at(side: Side) -> u16
    requires { Within spec_list_bytes side }
    ensures { result ≡ side_at side }
{
    match side {
        Side::Part(at, _) => narrow(at),
        Side::Absent | Side::Head => 0,
    }
}

// How many bytes of the spec list a side has.
pub fn side_len(side: Side) -> u16
    requires { Within spec_list_bytes side }
    ensures { result ≡ side_len side }
{
    match side {
        Side::Part(_, len) => narrow(len),
        Side::Absent | Side::Head => 0,
    }
}

// The side that three numbers tell.
pub fn side_from(kind: u16, at: usize, len: usize) -> Side
    ensures { result ≡ side_from kind at len }
{
    match kind {
        0 => Side::Absent,
        1 => Side::Part(at, len),
        _ => Side::Head,
    }
}
