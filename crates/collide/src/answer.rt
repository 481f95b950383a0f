// What the report on two specs answers: its four cases, and the writing of a destination.
ghost use Rattle.std.specs.Prelude.{◌≡◌, [], ◌∷◌, ◌++◌, ◌≤◌, length};
ghost use Rattle.std.proofs.Math.Option.{some};
ghost use Rattle.meaning.specs.Limits.{spec_list_bytes};
ghost use Rattle.meaning.specs.Spec.{accepted};
ghost use Rattle.meaning.specs.Buffers.{MeetsMaybe};
ghost use Rattle.refusal.specs.Numbers.{number_of};
ghost use Rattle.collide.specs.Answers.{refused_with, never, short_with, written_with};

use refusal::Refusal;

// A refusal's number or 0, which of the two specs is refused, 1 where they collide, and the bytes written or, beside 17, a length for the
// buffer. A field without a meaning is 0.
// As it is: (a) C reads this record, whose fields are numbers of 64 bits.
#[repr(C)]
#[derive(Clone, Copy)]
pub struct Collision {
    pub refusal: u64,
    pub which: u64,
    pub collides: u64,
    pub length: u64,
}

// No destination is written to under both.
pub(crate) fn none() -> Collision
    ensures { result ≡ never }
{
    Collision {
        refusal: 0,
        which: 0,
        collides: 0,
        length: 0,
    }
}

// The first or the second spec, 1 or 2, is refused.
// As it is: (a) C reads which of them it is as a number.
pub(crate) fn refused(refusal: Refusal, which: u64) -> Collision
    ensures { result ≡ refused_with (number_of refusal) which }
{
    Collision {
        refusal: refusal.number(),
        which,
        ..none()
    }
}

// The buffer is too short for so many bytes.
fn short(size: usize) -> Collision
    ensures { result ≡ short_with size }
{
    Collision {
        refusal: Refusal::BufferTooShort.number(),
        length: size as u64,
        ..none()
    }
}

// A destination of so many bytes was written.
fn written(size: usize) -> Collision
    ensures { result ≡ written_with size }
{
    Collision {
        collides: 1,
        length: size as u64,
        ..none()
    }
}

// The destination that is a and then b: it is measured before anything is written.
pub(crate) fn destination(a: &[u8], b: &[u8], out: &mut [u8]) -> Collision
    requires { (length a.now ≤ spec_list_bytes) × (length b.now ≤ spec_list_bytes) }
    ensures { MeetsMaybe (accepted (some (a.now ++ b.now) ∷ [])) out.old out.new result.refusal result.which result.collides result.length }
{
    let size = a.len() + b.len();
    if out.len() < size {
        short(size)
    } else {
        let i = buffer::put(out, 0, a);
        buffer::put(out, i, b);
        written(size)
    }
}
