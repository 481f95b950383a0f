//! What the programs that read a text file have in common: the text is read, its first refused line is told, numbers and texts are printed.
#![tactic(auto)]

ghost use Rattle.std.specs.Prelude.{◌≡◌, ◌<◌, ◌≤◌, IfOk, length, take};
ghost use Rattle.std.specs.Io.KnownBytes.{Consumes, IsAtEnd};
ghost use Rattle.meaning.specs.Limits.{spec_list_bytes, item_list_bytes, program_bytes};
ghost use Rattle.refused_line.specs.Message.{refused_line};
ghost use Rattle.text_lists.specs.Gather.{gathered};
ghost use Rattle.text_lists.specs.Growing.{Gathers};

use limits::PROGRAM_BYTES;
use refused_line::{MESSAGE_ROOM, put_refused};
use std::fmt;
use std::io::{Read, Write};
use stdio::{UNREAD, read_input, tell};
use text_lists::{Gathered, gather};

pub mod output;

// Why there is no text.
#[derive(Clone, Copy, Debug, PartialEq, Eq)]
pub enum TextError {
    // The input cannot be read.
    Unread,
    // It is above its limit.
    TooLong,
}

// The line that is told.
impl fmt::Display for TextError {
    fn fmt<W: fmt::Write>(&self, f: &mut fmt::Formatter<W>) -> fmt::Result {
        f.write_str(match self {
            TextError::Unread => UNREAD,
            TextError::TooLong => "the input is above 65,536 bytes\n",
        })
    }
}

// Reads a text into the start of the buffer.
fn read_within<R: Read>(from: &mut R, buffer: &mut [u8]) -> Result<usize, TextError>
    ensures within { IfOk result (λ n. (n ≤ length buffer.new) × (n ≤ program_bytes)) }
    ensures bytes { IfOk result (λ n. Consumes (R.remaining from.old) (R.remaining from.new) (take n buffer.new)) }
    ensures end { IfOk result (λ n. n < length buffer.new → IsAtEnd (R.remaining from.new)) }
{
    let n = read_input(from, buffer).map_err(|_| TextError::Unread)?;
    if PROGRAM_BYTES < n {
        return Err(TextError::TooLong);
    }
    Ok(n)
}

// Reads a text into the start of the buffer, which has room for a longer one, and answers its length; where there is none, that is told.
pub fn read_text<R: Read, E: Write>(
    from: &mut R,
    errors: &mut E,
    buffer: &mut [u8],
) -> Result<usize, TextError>
    ensures within { IfOk result (λ n. (n ≤ length buffer.new) × (n ≤ program_bytes)) }
    ensures bytes { IfOk result (λ n. Consumes (R.remaining from.old) (R.remaining from.new) (take n buffer.new)) }
    ensures end { IfOk result (λ n. n < length buffer.new → IsAtEnd (R.remaining from.new)) }
{
    read_within(from, buffer).inspect_err(|e| {
        let _ = write!(errors, "{e}");
    })
}

// Tells which line is refused, and why, and answers how many bytes are told.
// As it is: (a) the reason is any number, as `refusal_words` has words for any; a `Reason` would ask more of callers.
pub fn tell_refused<E: Write>(errors: &mut E, number: usize, reason: u64, line: &[u8]) -> usize
    requires { length line.now ≤ program_bytes }
    ensures { result ≡ length (refused_line number reason line.now) }
{
    let mut out = [0u8; MESSAGE_ROOM];
    let n = put_refused(&mut out, number, reason, line);
    tell(errors, &out[..n]);
    n
}

// The lists that the lines of a text give, as `gather` writes them; the line that is refused is told.
pub fn gather_or_tell<'a, E: Write>(
    errors: &mut E,
    input: &'a [u8],
    specs: &mut [u8],
    items: &mut [u8],
) -> Gathered<'a>
    requires { (length input.now ≤ program_bytes) × (spec_list_bytes ≤ length specs.old) × (item_list_bytes ≤ length items.old) }
    ensures { Gathers input.now (gathered input.now) specs.old items.old specs.new items.new result }
{
    let g = gather(input, specs, items);
    if let Some(l) = g.refused {
        tell_refused(errors, l.number, l.reason.number(), l.text);
    }
    g
}
