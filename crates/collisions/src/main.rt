// Reads fetch specs as lines of text, `fetch SPEC`, and prints each two of them that can ever write one destination, with such a
// destination, or in words that there are none.
// Names, blank lines and lines that begin with `#` are passed over. The first line that is refused is told on standard error, and so is what
// cannot be read or written.
#![tactic(auto)]

ghost use Rattle.std.specs.Prelude.{◌≤◌, length};
ghost use Rattle.meaning.specs.Limits.{program_bytes};

use limits::{ITEM_LIST_BYTES, SPEC_LIST_BYTES};
use std::io::Write;
use stdio::{INPUT_ROOM, finish};
use text_program::{gather_or_tell, read_text};

mod pairs;

use pairs::show_pairs;

// Tells the first line of a text that is refused, or prints the pairs of its specs.
fn show<W: Write, E: Write>(output: &mut W, errors: &mut E, input: &[u8])
    requires { length input.now ≤ program_bytes }
{
    let mut specs = [0u8; SPEC_LIST_BYTES];
    let mut items = [0u8; ITEM_LIST_BYTES];
    let g = gather_or_tell(errors, input, &mut specs, &mut items);
    if g.refused.is_none() {
        finish(errors, show_pairs(output, input));
    }
}

// As it is: (d) each program has a main of its own, and what it does with the text is its own.
fn main(rt: HostRuntime) {
    let mut input = [0u8; INPUT_ROOM];
    if let Ok(n) = read_text(&mut rt.stdin(), &mut rt.stderr(), &mut input) {
        show(&mut rt.stdout(), &mut rt.stderr(), &input[..n]);
    }
}
