// Reads a number, a spec list of that many bytes and an item list, and prints the fetch rows, or a refusal alone. What cannot be read or
// written is told on standard error.
#![tactic(auto)]

ghost use Rattle.std.specs.Prelude.{◌≤◌, IfSome, OnOk, length, take};
ghost use Rattle.std.specs.Io.KnownBytes.{Appends};
ghost use Rattle.meaning.specs.Deliveries.{deliveries};
ghost use Rattle.stdio.specs.Streams.{Says};

use deliver::deliver;
use limits::PROGRAM_BYTES;
use std::io;
use std::io::{Read, Write};
use stdio::{INPUT_ROOM, read_input, say, tell_unread, tell_unwritten};

// Prints what the first n bytes of a buffer give.
fn show_first<W: Write>(to: &mut W, buffer: &[u8], n: usize) -> io::Result<()>
    requires { n ≤ length buffer.now }
    ensures { Says result (W.contents to.old) (W.contents to.new) (deliveries (take n buffer.now)) }
{
    let mut rows = [0u8; PROGRAM_BYTES];
    let mut out = [0u8; PROGRAM_BYTES];
    let size = deliver(&buffer[..n], &mut rows, &mut out);
    say(to, &out[..size])
}

// Reads an input and prints what it gives. What cannot be read or written is told.
fn run<R: Read, W: Write, E: Write>(from: &mut R, to: &mut W, errors: &mut E) -> io::Result<()>
    ensures { OnOk result (IfSome (R.remaining from.old) (λ input. Appends (W.contents to.old) (W.contents to.new) (deliveries input))) }
{
    let mut input = [0u8; INPUT_ROOM];
    let n = read_input(from, &mut input).inspect_err(|_| tell_unread(errors))?;
    show_first(to, &input, n).inspect_err(|_| tell_unwritten(errors))
}

fn main(rt: HostRuntime) {
    let _ = run(&mut rt.stdin(), &mut rt.stdout(), &mut rt.stderr());
}
