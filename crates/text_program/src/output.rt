// Printing on a program's output, up to the first write that fails.
ghost use Rattle.std.specs.Prelude.{◌≡◌, position};
ghost use Rattle.print.specs.Lines.{coded};
ghost use Rattle.stdio.specs.Streams.{Says};
ghost use Rattle.text_program.specs.Output.{in_print, needs_code, line_named};

use print::shown::{capital_digit, is_plain};
use std::io;
use std::io::Write;
use stdio::say;

// The place of the first byte that is not printed as it is.
fn first_coded(t: &[u8]) -> Option<usize>
    ensures { result ≡ position needs_code t.now }
{
    t.iter().position(|b| !is_plain(*b))
}

// Prints one byte as `%` and two capital hexadecimal digits, in one write.
#[tactic(auto, unfolding(print::specs::Lines::coded))]
fn say_coded<W: Write>(to: &mut W, b: u8) -> io::Result<()>
    ensures { Says result (W.contents to.old) (W.contents to.new) (coded b) }
{
    say(to, &[b'%', capital_digit(b / 16), capital_digit(b % 16)])
}

// Prints a text: bytes that are printed as they are in one go, and each other one in between.
pub fn say_text<W: Write>(to: &mut W, t: &[u8]) -> io::Result<()>
    ensures { Says result (W.contents to.old) (W.contents to.new) (in_print t.now) }
{
    let mut rest = t;
    // As it is: (d) a step of the loop is what stands before a coded byte; `split` would pass over that byte, and `split_inclusive` leave
    // it at the end.
    while let Some(at) = first_coded(rest) {
        let (plain, others) = rest.split_at(at);
        say(to, plain)?;
        say_coded(to, others[0])?;
        rest = &others[1..];
    }
    say(to, rest)
}

// Names a line by its number.
pub fn say_line<W: Write>(to: &mut W, number: usize) -> io::Result<()>
    ensures { Says result (W.contents to.old) (W.contents to.new) (line_named number) }
{
    write!(to, "line {number}")
}
