//! Why a call is refused: the questions of document 01. Their numbers are those of the C interface.
#![tactic(auto)]

ghost use Rattle.std.specs.Prelude.{◌≡◌};
ghost use Rattle.refusal.specs.Numbers.{number_of};

// A question of document 01 that refuses a call.
#[derive(Clone, Copy, Debug, PartialEq, Eq)]
pub enum Refusal {
    // 1: a spec is above its limit.
    SpecTooLong,
    // 2: a push spec is empty.
    Empty,
    // 3: a negative spec has a colon.
    NegativeWithDestination,
    // 4: a push with a colon and a source has no destination.
    PushToEmpty,
    // 5: the source has more than one star.
    SourceStars,
    // 6: the source breaks the name rules.
    SourceName,
    // 7: the destination has more than one star.
    DestinationStars,
    // 8: the destination breaks the name rules.
    DestinationName,
    // 9: one side has a star, and the other has none.
    PatternUnbalanced,
    // 10: a negative spec has no source.
    NegativeEmpty,
    // 11: the source of a negative spec is hexadecimal digits, as many as an object id has or more.
    NegativeObjectHash,
    // 12: a list is above its limit.
    ListTooLong,
    // 13: a record is not well formed within its list.
    Malformed,
    // 14: a list has more records than it may.
    TooManyRecords,
    // 15: an item's name is above its limit.
    NameTooLong,
    // 16: a row, or a view, names what the lists do not have.
    RowOutside,
    // 17: a buffer has no room for the answer.
    BufferTooShort,
    // 18: the operation is neither 0, fetch, nor 1, push.
    UnknownOperation,
}

impl Refusal {
    // The number of the question.
    pub fn number(self) -> u64
        ensures { result ≡ number_of self }
    {
        match self {
            Refusal::SpecTooLong => 1,
            Refusal::Empty => 2,
            Refusal::NegativeWithDestination => 3,
            Refusal::PushToEmpty => 4,
            Refusal::SourceStars => 5,
            Refusal::SourceName => 6,
            Refusal::DestinationStars => 7,
            Refusal::DestinationName => 8,
            Refusal::PatternUnbalanced => 9,
            Refusal::NegativeEmpty => 10,
            Refusal::NegativeObjectHash => 11,
            Refusal::ListTooLong => 12,
            Refusal::Malformed => 13,
            Refusal::TooManyRecords => 14,
            Refusal::NameTooLong => 15,
            Refusal::RowOutside => 16,
            Refusal::BufferTooShort => 17,
            Refusal::UnknownOperation => 18,
        }
    }
}
