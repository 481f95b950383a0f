// The lines that are refused, told on standard error.
ghost use Rattle.std.specs.Prelude.{◌≤◌, length};
ghost use Rattle.meaning.specs.Limits.{program_bytes};

use crate::spec::Spec;
use parse::parse;
use std::io::Write;
use text_lists::line::{Line, Lines, classify};
use text_lists::reason::Reason;
use text_program::tell_refused;

// Why a line is refused, if it is. Names are passed over.
fn line_reason(line: &[u8]) -> Option<Reason> {
    if let Some(spec) = Spec::on(line) {
        return parse(spec.op, spec.text).err().map(Reason::Question);
    }
    match classify(line) {
        Line::Marked => Some(Reason::Marked),
        Line::Unknown => Some(Reason::Unknown),
        _ => None,
    }
}

// Tells each line that is refused; answers whether one is.
pub(crate) fn tell_lines<E: Write>(errors: &mut E, s: &[u8]) -> bool
    requires { length s.now ≤ program_bytes }
{
    let mut some = false;
    for (number, line) in Lines::of(s) {
        if let Some(reason) = line_reason(line) {
            tell_refused(errors, number, reason.number(), line);
            some = true;
        }
    }
    some
}
