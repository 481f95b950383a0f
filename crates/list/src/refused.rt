// Why a list is refused.
ghost use Rattle.std.specs.Prelude.{◌≡◌};
ghost use Rattle.list.specs.Checked.{carrying, numbered};

use refusal::Refusal;

// A list's refusal, and the number of the record that it carries; 0 where it carries none.
#[derive(Clone, Copy, Debug, PartialEq, Eq)]
pub struct Refused {
    pub refusal: Refusal,
    pub record: u64,
}

impl Refused {
    // The refusal of the record with this number.
    pub fn of_record(refusal: Refusal, number: usize) -> Self
        ensures { result ≡ carrying refusal number }
    {
        Refused {
            refusal,
            record: number as u64,
        }
    }

    // The refusal of a whole list, which carries no record.
    pub fn of_list(refusal: Refusal) -> Self
        ensures { result ≡ carrying refusal 0 }
    {
        Refused { refusal, record: 0 }
    }
}

// An answer on the record with this number: a refusal carries it.
pub fn numbered<T: Copy>(answer: Result<T, Refusal>, number: usize) -> Result<T, Refused>
    ensures { result ≡ numbered answer number }
{
    match answer {
        Ok(value) => Ok(value),
        Err(refusal) => Err(Refused::of_record(refusal, number)),
    }
}
