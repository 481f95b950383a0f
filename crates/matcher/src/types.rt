// What one spec looks for and what it makes of a name, as places. Port of the crate's match_group types.rs and of the types in util.rs.
ghost use Rattle.std.specs.Prelude.{◌≡◌};
ghost use Rattle.matcher.specs.Matching.{lead_bytes, lowers};

use parse::types::Side;

// What a source looks for.
// As it is: (d) `Absent` is one of several cases; an Option around the others would add a layer to each match, as in `Some(Needle::Glob(star))`.
#[derive(Clone, Copy)]
pub enum Needle {
    // Nothing: there is no source.
    Absent,
    // A pattern whose star stands at this place in the source.
    Glob(usize),
    // The source as a full name.
    FullName,
    // The object id that the source spells.
    Object,
    // A name of which the source is a part.
    PartialName,
}

// How a literal text is led.
#[derive(Clone, Copy)]
pub enum Lead {
    // As it is.
    AsIs,
    // After `refs/`.
    Refs,
    // After `refs/heads/`.
    Heads,
    // Its lower-case digits after `refs/heads/`.
    HeadsDigits,
    // Its lower-case digits.
    Digits,
}

impl Lead {
    // The bytes that lead.
    pub fn bytes(self) -> &'static [u8]
        ensures { result.now ≡ lead_bytes self }
    {
        match self {
            Lead::AsIs | Lead::Digits => b"",
            Lead::Refs => b"refs/",
            Lead::Heads | Lead::HeadsDigits => b"refs/heads/",
        }
    }

    // What is led stands in lower case.
    pub fn lowers(self) -> bool
        ensures { result ≡ lowers self }
    {
        matches!(self, Lead::HeadsDigits | Lead::Digits)
    }
}

// A destination.
// As it is: (d) `Absent` is one of several cases; an Option around the others would add a layer to each match, as in `Some(Target::Pattern(star))`.
#[derive(Clone, Copy)]
pub enum Target {
    // There is none.
    Absent,
    // A pattern whose star stands at this place in the destination.
    Pattern(usize),
    // A literal, which is led so when it is completed.
    Literal(Lead),
}

// One spec: its sides as places in the spec list, what the source looks for, and what the destination is.
#[derive(Clone, Copy)]
pub struct Matcher {
    pub src: Side,
    pub lhs: Needle,
    pub dst: Side,
    pub rhs: Target,
}

// The places of a pattern with the capture for its star: a part of the spec list, then a part of the name, then a part of the spec list.
#[derive(Clone, Copy)]
pub struct Filled {
    pub start: usize,
    pub start_len: usize,
    pub from: usize,
    pub len: usize,
    pub end: usize,
    pub end_len: usize,
}

// A text that a match makes.
// As it is: (d) `Absent` is one of several cases; an Option around the others would add a layer to each match, as in `Some(RowText::Led(lead, side))`.
#[derive(Clone, Copy)]
pub enum RowText {
    // There is none.
    Absent,
    // The name that was matched.
    Name,
    // A side of the spec, led.
    Led(Lead, Side),
    // A pattern with the capture for its star.
    Filled(Filled),
}

// The ends of a row.
#[derive(Clone, Copy)]
pub struct Ends {
    pub source: RowText,
    pub destination: RowText,
}
