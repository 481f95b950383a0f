//! The standard streams of a program, with failures told: its input read to the end, its output written, and words for people.
#![tactic(auto)]

ghost use Rattle.std.specs.Prelude.{◌<◌, ◌≤◌, IfOk, OnOk, length, take};
ghost use Rattle.std.specs.Io.KnownBytes.{Consumes, IsAtEnd};
ghost use Rattle.stdio.specs.Streams.{Says};

use limits::PROGRAM_BYTES;
use std::io;
use std::io::{Read, Write};

// Room for an input and one byte above its limit, so that a longer one shows.
pub const INPUT_ROOM: usize = PROGRAM_BYTES + 1;

// Reads until the buffer is full, the input ends or a read fails. Answers how many bytes stand at the start of the buffer, and whether a
// read failed.
pub fn read_full<R: Read>(from: &mut R, buffer: &mut [u8]) -> (usize, io::Result<()>)
    ensures within { result.0 ≤ length buffer.new }
    ensures bytes { Consumes (R.remaining from.old) (R.remaining from.new) (take result.0 buffer.new) }
    ensures end { OnOk result.1 (result.0 < length buffer.new → IsAtEnd (R.remaining from.new)) }
{
    let mut at = 0;
    // As it is: (d) a read says how many bytes it got, `read_exact` does not, and `read_to_end` needs a Vec.
    while at < buffer.len() {
        match from.read(&mut buffer[at..]) {
            Ok(0) => return (at, Ok(())),
            Ok(n) => at += n,
            Err(e) => return (at, Err(e)),
        }
    }
    (at, Ok(()))
}

// Reads an input to its end, or as much of it as the buffer holds, into the start of the buffer, and answers how many bytes it read.
pub fn read_input<R: Read>(from: &mut R, buffer: &mut [u8]) -> io::Result<usize>
    ensures within { IfOk result (λ n. n ≤ length buffer.new) }
    ensures bytes { IfOk result (λ n. Consumes (R.remaining from.old) (R.remaining from.new) (take n buffer.new)) }
    ensures end { IfOk result (λ n. n < length buffer.new → IsAtEnd (R.remaining from.new)) }
{
    let (n, read) = read_full(from, buffer);
    read?;
    Ok(n)
}

// Writes to a program's output.
pub fn say<W: Write>(to: &mut W, t: &[u8]) -> io::Result<()>
    ensures { Says result (W.contents to.old) (W.contents to.new) t.now }
{
    to.write_all(t)
}

// The line that is told where the input cannot be read.
pub const UNREAD: &str = "standard input cannot be read\n";

// Writes words for people. Nobody can be told that this failed.
pub fn tell<W: Write>(to: &mut W, words: &[u8]) {
    let _ = to.write_all(words);
}

// Tells that the input could not be read.
pub fn tell_unread<W: Write>(to: &mut W) {
    tell(to, UNREAD.as_bytes());
}

// Tells that the output was not written to its end.
pub fn tell_unwritten<W: Write>(to: &mut W) {
    tell(to, b"standard output cannot be written\n");
}

// Tells that the output was not written to its end, if so.
pub fn finish<W: Write>(to: &mut W, written: io::Result<()>) {
    if written.is_err() {
        tell_unwritten(to);
    }
}
