// What a call that writes into one lent buffer answers, and its three cases.
ghost use Rattle.std.specs.Prelude.{◌≡◌};
ghost use Rattle.buffer.specs.Answers.{refused_with, short_with, done_with};

use refusal::Refusal;

// A refusal's number or 0, the number of the record that it carries, and the bytes written or, beside 17, a length for the buffer. A field
// without a meaning is 0.
// As it is: (a) the C interface's record of numbers, which each entry that writes answers.
#[repr(C)]
#[derive(Clone, Copy)]
pub struct Written {
    pub refusal: u64,
    pub record: u64,
    pub length: u64,
}

// The call is refused; the record is 0 where the refusal carries none.
pub fn refused(refusal: u64, record: u64) -> Written
    ensures { result ≡ refused_with refusal «record» }
{
    Written {
        refusal,
        record,
        length: 0,
    }
}

// The buffer is too short for so many bytes.
pub fn short(size: usize) -> Written
    ensures { result ≡ short_with size }
{
    Written {
        refusal: Refusal::BufferTooShort.number(),
        record: 0,
        length: size as u64,
    }
}

// So many bytes were written.
pub fn done(size: usize) -> Written
    ensures { result ≡ done_with size }
{
    Written {
        refusal: 0,
        record: 0,
        length: size as u64,
    }
}
