// The pairs of specs that can collide, an earlier line before a later one.
ghost use Rattle.stdio.specs.Streams.{Says};
ghost use Rattle.collisions.specs.Pairs.{pair_line};

use collide::collide;
use limits::SPEC_BYTES;
use std::io;
use std::io::Write;
use stdio::say;
use text_lists::line::{Line, Lines, classify};
use text_program::output::{say_line, say_text};

// Room for a destination that two specs share: a start of one and an end of the other, or a completed literal. So no buffer is too short
// here; `tests/run` has the longest destination.
const DESTINATION_ROOM: usize = 2 * SPEC_BYTES;

// A spec and the number of its line.
#[derive(Clone, Copy)]
struct Spec<'a> {
    number: usize,
    text: &'a [u8],
}

// Prints that two lines can write a destination.
fn say_pair<W: Write>(to: &mut W, first: usize, second: usize, destination: &[u8]) -> io::Result<()>
    ensures { Says result (W.contents to.old) (W.contents to.new) (pair_line first second destination.now) }
{
    say_line(to, first)?;
    say(to, b" and ")?;
    say_line(to, second)?;
    say(to, b" can both write =")?;
    say_text(to, destination)?;
    say(to, b"\n")
}

// Prints the pair of two specs, if they can collide; answers whether they can.
fn show_pair<W: Write>(to: &mut W, one: Spec, other: Spec) -> io::Result<bool> {
    let mut out = [0u8; DESTINATION_ROOM];
    let c = collide(one.text, other.text, &mut out);
    if c.collides == 0 {
        return Ok(false);
    }
    // As it is: (d) a number of 64 bits has no From to `usize`, and `try_from` may fail.
    say_pair(to, one.number, other.number, &out[..c.length as usize])?;
    Ok(true)
}

// The fetch spec of a line, if it holds one.
fn spec_on((number, line): (usize, &[u8])) -> Option<Spec> {
    match classify(line) {
        Line::Fetch(start) => Some(Spec {
            number,
            text: &line[start..],
        }),
        _ => None,
    }
}

// Prints each pair of specs that can collide; answers whether there is one.
fn show_each<W: Write>(to: &mut W, s: &[u8]) -> io::Result<bool> {
    let mut some = false;
    let mut lines = Lines::of(s);
    // As it is: (d) the inner loop goes over a copy of the lines that are left, which a `for` would not lend.
    while let Some(line) = lines.next() {
        let Some(one) = spec_on(line) else { continue };
        for other in lines.filter_map(spec_on) {
            some |= show_pair(to, one, other)?;
        }
    }
    Ok(some)
}

// Prints each pair of specs that can collide, or in words that there is none.
pub(crate) fn show_pairs<W: Write>(to: &mut W, s: &[u8]) -> io::Result<()> {
    if !show_each(to, s)? {
        say(
            to,
            b"no two of these specs can ever write one destination\n",
        )?;
    }
    Ok(())
}
