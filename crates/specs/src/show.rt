// What a spec becomes, in words: its instruction, its sides, its canonical text, its prefix and the prefixes that it yields.
use crate::spec::Spec;
use expand::expand_prefixes;
use frames::FRAMES;
use limits::PROGRAM_BYTES;
use number::Number;
use parse::types::Side;
use refspec::instruction::Instruction;
use refspec::spec::{instruction, prefix};
use std::io;
use std::io::Write;
use stdio::say;
use text_program::output::{say_line, say_text};
use write::to_bstring;

// Prints a text after its name, as a line. The name comes with the spaces around it, so that it is one write.
fn show_field<W: Write>(to: &mut W, name: &[u8], t: &[u8]) -> io::Result<()> {
    say(to, name)?;
    say_text(to, t)?;
    say(to, b"\n")
}

// Begins the block of a spec.
fn show_head<W: Write>(to: &mut W, what: &str, force: bool) -> io::Result<()> {
    let end = if force { ", forced\n" } else { "\n" };
    write!(to, "{what}{end}")
}

// Prints a side; an absent one is passed over.
fn show_side<W: Write>(to: &mut W, name: &[u8], spec: &[u8], side: Side) -> io::Result<()> {
    match side {
        Side::Absent => Ok(()),
        Side::Part(at, n) => match spec.get(at..).and_then(|t| t.get(..n)) {
            Some(t) => show_field(to, name, t),
            None => Ok(()),
        },
        Side::Head => show_field(to, name, b"HEAD"),
    }
}

// Prints an instruction's name and its sides.
fn show_sides<W: Write>(
    to: &mut W,
    what: &str,
    force: bool,
    spec: &[u8],
    src: Side,
    dst: Side,
) -> io::Result<()> {
    show_head(to, what, force)?;
    show_side(to, b"  source       ", spec, src)?;
    show_side(to, b"  destination  ", spec, dst)
}

// Prints an instruction.
fn show_instruction<W: Write>(to: &mut W, spec: &[u8], i: Instruction) -> io::Result<()> {
    match i {
        Instruction::FetchOnly { src } => {
            show_sides(to, "fetch only", false, spec, src, Side::Absent)
        }
        Instruction::FetchExclude { src } => {
            show_sides(to, "fetch, exclude", false, spec, src, Side::Absent)
        }
        Instruction::FetchAndUpdate {
            src,
            dst,
            allow_non_fast_forward,
        } => show_sides(
            to,
            "fetch and update",
            allow_non_fast_forward,
            spec,
            src,
            dst,
        ),
        Instruction::PushAllMatchingBranches {
            allow_non_fast_forward,
        } => show_head(to, "push all matching branches", allow_non_fast_forward),
        Instruction::PushDelete { ref_or_pattern } => {
            show_sides(
                to,
                "push, delete",
                false,
                spec,
                Side::Absent,
                ref_or_pattern,
            )
        }
        Instruction::PushMatching {
            src,
            dst,
            allow_non_fast_forward,
        } => show_sides(to, "push", allow_non_fast_forward, spec, src, dst),
        Instruction::PushExclude { src } => {
            show_sides(to, "push, exclude", false, spec, src, Side::Absent)
        }
    }
}

// Prints the canonical text of a spec.
fn show_text<W: Write>(to: &mut W, spec: Spec) -> io::Result<()> {
    let mut out = [0u8; PROGRAM_BYTES];
    let w = to_bstring(spec.op, spec.text, &mut out);
    // As it is: (d) a number of 64 bits has no From to `usize`, and `try_from` may fail.
    match out.get(..w.length as usize) {
        Some(t) => show_field(to, b"  text         ", t),
        None => Ok(()),
    }
}

// Prints the prefix of a spec, if it has one.
fn show_prefix<W: Write>(to: &mut W, spec: Spec) -> io::Result<()> {
    match prefix(spec.op, spec.text) {
        Ok(side) => show_side(to, b"  prefix       ", spec.text, side),
        Err(_) => Ok(()),
    }
}

// The texts of a prefix list that are left.
#[derive(Drop)]
struct Texts<'a>(&'a [u8]);

impl<'a> Iterator for Texts<'a> {
    type Item = &'a [u8];

    fn next(&mut self) -> Option<&'a [u8]> {
        let Number { value, next } = number::read(self.0, 0)?;
        let (t, rest) = self.0.get(next..)?.split_at_checked(value)?;
        self.0 = rest;
        Some(t)
    }
}

// Prints a prefix list, of which a spec yields at most six texts, if it has any.
fn show_list<W: Write>(to: &mut W, list: &[u8]) -> io::Result<()> {
    if list.is_empty() {
        return Ok(());
    }
    say(to, b"  prefixes    ")?;
    for t in Texts(list).take(FRAMES) {
        say(to, b" ")?;
        say_text(to, t)?;
    }
    say(to, b"\n")
}

// Prints the prefixes that a spec yields.
fn show_prefixes<W: Write>(to: &mut W, spec: Spec) -> io::Result<()> {
    let mut out = [0u8; PROGRAM_BYTES];
    let w = expand_prefixes(spec.op, spec.text, &mut out);
    // As it is: (d) as in `show_text`.
    match out.get(..w.length as usize) {
        Some(list) => show_list(to, list),
        None => Ok(()),
    }
}

// Prints what the spec on a line becomes, after the number of the line; one that is refused has been told.
pub(crate) fn show_spec<W: Write>(to: &mut W, number: usize, spec: Spec) -> io::Result<()> {
    let Ok(i) = instruction(spec.op, spec.text) else {
        return Ok(());
    };
    say_line(to, number)?;
    say(to, b": ")?;
    show_instruction(to, spec.text, i)?;
    show_text(to, spec)?;
    show_prefix(to, spec)?;
    show_prefixes(to, spec)
}
