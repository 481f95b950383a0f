// Reads specs as lines of text, `fetch SPEC` or `push SPEC`, and prints what each becomes. Blank lines, lines that begin with `#` and names
// are passed over. Where lines are refused, each of them is told on standard error and nothing is printed; what cannot be read or written
// is told there too.
#![tactic(auto)]

ghost use Rattle.std.specs.Prelude.{◌≤◌, length};
ghost use Rattle.meaning.specs.Limits.{program_bytes};

use std::io;
use std::io::Write;
use stdio::{INPUT_ROOM, finish};
use text_lists::line::Lines;
use text_program::read_text;

mod refused;
mod show;
mod spec;

use refused::tell_lines;
use show::show_spec;
use spec::Spec;

// Prints what each line becomes.
fn show_lines<W: Write>(to: &mut W, s: &[u8]) -> io::Result<()> {
    for (number, line) in Lines::of(s) {
        if let Some(spec) = Spec::on(line) {
            show_spec(to, number, spec)?;
        }
    }
    Ok(())
}

// Tells the lines that are refused, or prints what each line becomes.
fn answer<W: Write, E: Write>(output: &mut W, errors: &mut E, s: &[u8])
    requires { length s.now ≤ program_bytes }
{
    if !tell_lines(errors, s) {
        finish(errors, show_lines(output, s));
    }
}

// As it is: (d) each program has a main of its own, and what it does with the text is its own.
fn main(rt: HostRuntime) {
    let mut input = [0u8; INPUT_ROOM];
    if let Ok(n) = read_text(&mut rt.stdin(), &mut rt.stderr(), &mut input) {
        answer(&mut rt.stdout(), &mut rt.stderr(), &input[..n]);
    }
}
