// The way to interpret a refspec, and a refspec as places in its bytes. Port of the crate's types.rs and of its record in lib.rs.
ghost use Rattle.std.specs.Prelude.{◌≡◌};
ghost use Rattle.meaning.specs.Spec.{is_negative};
ghost use Rattle.parse.specs.Places.{mode_meant, is_present, sign_length};

// An operation: what its number is read as, once question 18 has passed it.
#[derive(Clone, Copy, Debug, PartialEq, Eq)]
pub(crate) enum Operation {
    Fetch,
    Push,
}

// The way to interpret a refspec.
#[derive(Clone, Copy, Debug, PartialEq, Eq)]
pub enum Mode {
    Normal,
    Force,
    Negative,
}

impl Mode {
    // The mode of `^`.
    pub fn is_negative(self) -> bool
        ensures { result ≡ is_negative (mode_meant self) }
    {
        matches!(self, Mode::Negative)
    }

    // How many bytes the sign of a mode takes.
    pub(crate) fn sign_length(self) -> usize
        ensures { result ≡ sign_length (mode_meant self) }
    {
        match self {
            Mode::Normal => 0,
            Mode::Force | Mode::Negative => 1,
        }
    }
}

// Where a side of a spec stands: absent, a start and a length in the spec's bytes, or `HEAD`, which the bytes do not spell.
// As it is: (d) absent is one of a side's three cases, and an `Option` of the other two would part each match in two.
#[derive(Clone, Copy, Debug, PartialEq, Eq)]
pub enum Side {
    Absent,
    Part(usize, usize),
    Head,
}

impl Side {
    // A side is there.
    pub fn is_present(self) -> bool
        ensures { result ≡ is_present self }
    {
        !matches!(self, Side::Absent)
    }
}

// A refspec as places in its bytes.
#[derive(Clone, Copy, Debug, PartialEq, Eq)]
pub struct RefSpec {
    pub mode: Mode,
    pub src: Side,
    pub dst: Side,
}
