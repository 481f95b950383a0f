// Reads specs and names as lines of text, `fetch SPEC`, `name NAME` or `shown =NAME`, and prints what the specs map which names to. Blank
// lines and lines that begin with `#` are passed over. The first line that is refused is told on standard error, and so is what cannot be
// read or written.
#![tactic(auto)]

ghost use Rattle.std.specs.Prelude.{◌≤◌, length};
ghost use Rattle.meaning.specs.Limits.{program_bytes};

use deliver::print_lists;
use limits::{ITEM_LIST_BYTES, PROGRAM_BYTES, SPEC_LIST_BYTES};
use std::io::Write;
use stdio::{INPUT_ROOM, finish, say, tell};
use text_program::{gather_or_tell, read_text};

// Prints a listing. Its header does not begin so: this is 17, the one refusal of lists that were gathered.
fn show_printed<W: Write, E: Write>(output: &mut W, errors: &mut E, t: &[u8]) {
    if compare::begins(b"refused ", t) {
        tell(errors, b"the listing is above 65,536 bytes\n");
    } else {
        finish(errors, say(output, t));
    }
}

// Prints the listing of a spec list and an item list.
fn show_lists<W: Write, E: Write>(output: &mut W, errors: &mut E, specs: &[u8], items: &[u8]) {
    let mut rows = [0u8; PROGRAM_BYTES];
    let mut out = [0u8; PROGRAM_BYTES];
    let size = print_lists(specs, items, &mut rows, &mut out);
    show_printed(output, errors, &out[..size]);
}

// Prints what the lines of a text give.
fn show<W: Write, E: Write>(output: &mut W, errors: &mut E, input: &[u8])
    requires { length input.now ≤ program_bytes }
{
    let mut specs = [0u8; SPEC_LIST_BYTES];
    let mut items = [0u8; ITEM_LIST_BYTES];
    let g = gather_or_tell(errors, input, &mut specs, &mut items);
    if g.refused.is_none() {
        show_lists(output, errors, &specs[..g.specs], &items[..g.items]);
    }
}

// As it is: (d) each program has a main of its own, and what it does with the text is its own.
fn main(rt: HostRuntime) {
    let mut input = [0u8; INPUT_ROOM];
    if let Ok(n) = read_text(&mut rt.stdin(), &mut rt.stderr(), &mut input) {
        show(&mut rt.stdout(), &mut rt.stderr(), &input[..n]);
    }
}
