// Why a line is refused.
ghost use Rattle.std.specs.Prelude.{◌≡◌};
ghost use Rattle.text_lists.specs.declared.reason.Reason.TheVariants.{Question};
ghost use Rattle.text_lists.specs.Reasons.{reason_number};

use refusal::Refusal;

// Why a line is refused: by a question of document 01, or for a reason of our own.
#[derive(Clone, Copy, Debug, PartialEq, Eq)]
pub enum Reason {
    Question(Refusal),
    // 101: a push; only a fetch is listed.
    Push,
    // 102: a line of no known kind.
    Unknown,
    // 103: a line that begins with a byte order mark.
    Marked,
    // 104: a shown name without `=` before it.
    Unsigned,
    // 105: a shown name with a `%` without two digits.
    Malformed,
    // 106: a shown name with a byte that no listing prints.
    Unprinted,
}

impl Reason {
    // The number of the reason: a question has that of document 01.
    pub fn number(self) -> u64
        ensures { result ≡ reason_number self }
    {
        match self {
            Reason::Question(q) => q.number(),
            Reason::Push => 101,
            Reason::Unknown => 102,
            Reason::Marked => 103,
            Reason::Unsigned => 104,
            Reason::Malformed => 105,
            Reason::Unprinted => 106,
        }
    }
}

impl From<Refusal> for Reason {
    ghost from_gives = { λ q r. r ≡ Question q };

    fn from(q: Refusal) -> Reason {
        Reason::Question(q)
    }
}
