//! The lists that the lines of a text give: the specs of its fetch lines as a spec list, its names as an item list.
#![tactic(auto)]

ghost use Rattle.std.specs.Prelude.{◌≡◌, ◌+◌, ◌<◌, ◌≤◌, length, take, drop};
ghost use Rattle.meaning.specs.Limits.{spec_list_bytes, program_bytes, item_list_bytes};
ghost use Rattle.meaning.specs.Number.{text_bytes};
ghost use Rattle.refusal.specs.Numbers.{number_or0};
ghost use Rattle.buffer.specs.Splice.{RoomFor, Puts};
ghost use Rattle.text_lists.specs.Line.{lines_of, held_in};
ghost use Rattle.text_lists.specs.Gather.{room_reason, spec_reason, name_reason, fault_reason, gathered};
ghost use Rattle.text_lists.specs.Reasons.{reason_number};
ghost use Rattle.text_lists.specs.Growing.{Room, SpecAdds, NameAdds, ShownAdds, LineAdds, Gathers};

use limits::{ITEM_COUNT, ITEM_LIST_BYTES, NAME_BYTES, PROGRAM_BYTES, SPEC_COUNT, SPEC_LIST_BYTES};
use percent::decode;
use refusal::Refusal;

pub mod line;
pub mod reason;

use line::{Line, Lines, classify, next_line};
use reason::Reason;

// A line that is refused: its number, counting from 1, where it begins in the input, its text, and why.
#[derive(Clone, Copy)]
pub struct RefusedLine<'a> {
    pub number: usize,
    pub start: usize,
    pub text: &'a [u8],
    pub reason: Reason,
}

// What the lines gave: how many bytes the spec list and the item list have, and the first line that is refused, if one is.
#[derive(Clone, Copy)]
pub struct Gathered<'a> {
    pub specs: usize,
    pub items: usize,
    pub refused: Option<RefusedLine<'a>>,
}

// The two lists so far: how many specs there are, and how many bytes their list has; the same of the names.
#[derive(Clone, Copy)]
struct Lists {
    specs: usize,
    specs_size: usize,
    names: usize,
    names_size: usize,
}

// A list of `size` bytes, of which it may have `limit`, has room for a text.
fn ask_room(limit: usize, size: usize, t: &[u8]) -> Result<(), Refusal>
    requires { (size ≤ limit) × (length t.now ≤ program_bytes) }
    ensures { number_or0 result ≡ room_reason limit size t.now }
{
    let n = t.len();
    if limit - size < number::size(n) + n {
        return Err(Refusal::ListTooLong);
    }
    Ok(())
}

// A spec may follow so many others, in a list of `size` bytes.
fn ask_spec(count: usize, size: usize, t: &[u8]) -> Result<(), Refusal>
    requires { (size ≤ spec_list_bytes) × (length t.now ≤ program_bytes) }
    ensures { number_or0 result ≡ spec_reason count size t.now }
{
    if SPEC_COUNT <= count {
        return Err(Refusal::TooManyRecords);
    }
    parse::parse(0, t)?;
    ask_room(SPEC_LIST_BYTES, size, t)
}

// A name may follow so many others, in a list of `size` bytes.
fn ask_name(count: usize, size: usize, t: &[u8]) -> Result<(), Refusal>
    requires { (size ≤ item_list_bytes) × (length t.now ≤ program_bytes) }
    ensures { number_or0 result ≡ name_reason count size t.now }
{
    if ITEM_COUNT <= count {
        return Err(Refusal::TooManyRecords);
    }
    if NAME_BYTES < t.len() {
        return Err(Refusal::NameTooLong);
    }
    ask_room(ITEM_LIST_BYTES, size, t)
}

// Writes a text with its length before it, and answers the place after it.
fn put_text(out: &mut [u8], at: usize, t: &[u8]) -> usize
    requires { RoomFor out.old at (text_bytes t.now) × (length t.now ≤ program_bytes) }
    ensures { Puts out.old at (text_bytes t.now) out.new result }
{
    let n = t.len();
    let i = number::put(out, at, n);
    buffer::put(out, i, t)
}

// Adds a spec, unless it is refused.
// As it is: (d) `add_name` asks another question and lets another list grow; one function of both takes the question and two lists to tell apart.
fn add_spec(t: &[u8], specs: &mut [u8], so: Lists) -> Result<Lists, Reason>
    requires { (length t.now ≤ program_bytes) × Room spec_list_bytes so.specs_size specs.old }
    ensures { SpecAdds t.now so result specs.old specs.new }
{
    ask_spec(so.specs, so.specs_size, t)?;
    let end = put_text(specs, so.specs_size, t);
    Ok(Lists {
        specs: so.specs + 1,
        specs_size: end,
        ..so
    })
}

// Adds a name, unless it is refused.
fn add_name(t: &[u8], items: &mut [u8], so: Lists) -> Result<Lists, Reason>
    requires { (length t.now ≤ program_bytes) × Room item_list_bytes so.names_size items.old }
    ensures { NameAdds t.now so result items.old items.new }
{
    ask_name(so.names, so.names_size, t)?;
    let end = put_text(items, so.names_size, t);
    Ok(Lists {
        names: so.names + 1,
        names_size: end,
        ..so
    })
}

// Why a name as a listing shows it is refused that has a fault at a place.
fn fault_reason(t: &[u8], at: usize) -> Reason
    ensures { reason_number result ≡ fault_reason t.now at }
{
    if at == 0 {
        return Reason::Unsigned;
    }
    match t.get(at) {
        Some(b'%') => Reason::Malformed,
        _ => Reason::Unprinted,
    }
}

// Adds the name that the first n bytes of a buffer are, unless it is refused.
fn add_first(buffer: &[u8], n: usize, items: &mut [u8], so: Lists) -> Result<Lists, Reason>
    requires { (n ≤ length buffer.now) × (length buffer.now ≤ program_bytes) × Room item_list_bytes so.names_size items.old }
    ensures { NameAdds (take n buffer.now) so result items.old items.new }
{
    add_name(&buffer[..n], items, so)
}

// Adds the name that a listing shows so, unless it is refused.
fn add_shown(t: &[u8], items: &mut [u8], so: Lists) -> Result<Lists, Reason>
    requires { (length t.now ≤ program_bytes) × Room item_list_bytes so.names_size items.old }
    ensures { ShownAdds t.now so result items.old items.new }
{
    let mut name = [0u8; PROGRAM_BYTES];
    match decode(t, &mut name) {
        Ok(n) => add_first(&name, n, items, so),
        Err(fault) => Err(fault_reason(t, fault.at)),
    }
}

// Adds what a line holds, unless it is refused.
fn add_line(line: &[u8], specs: &mut [u8], items: &mut [u8], so: Lists) -> Result<Lists, Reason>
    requires { (length line.now ≤ program_bytes) × Room spec_list_bytes so.specs_size specs.old × Room item_list_bytes so.names_size items.old }
    ensures { LineAdds (held_in line.now) so result specs.old items.old specs.new items.new }
{
    match classify(line) {
        Line::Nothing => Ok(so),
        Line::Fetch(start) => add_spec(&line[start..], specs, so),
        Line::Push(_) => Err(Reason::Push),
        Line::Name(start) => add_name(&line[start..], items, so),
        Line::Shown(start) => add_shown(&line[start..], items, so),
        Line::Marked => Err(Reason::Marked),
        Line::Unknown => Err(Reason::Unknown),
    }
}

// Where the line begins that so many others come before.
#[tactic(auto, using(crate::proofs::Starts::start_within, crate::proofs::Starts::start_next))]
fn start_after(passed: usize, s: &[u8]) -> usize
    requires { passed < length (lines_of s.now) }
    ensures { lines_of (drop result s.now) ≡ drop passed (lines_of s.now) }
{
    let mut at = 0;
    for _i in 0..passed {
        at = next_line(s, at).next;
    }
    at
}

// The lists that the lines of a text give, written at the start of the buffers; where a line is refused, those of the lines before it.
pub fn gather<'a>(input: &'a [u8], specs: &mut [u8], items: &mut [u8]) -> Gathered<'a>
    requires { (length input.now ≤ program_bytes) × (spec_list_bytes ≤ length specs.old) × (item_list_bytes ≤ length items.old) }
    ensures { Gathers input.now (gathered input.now) specs.old items.old specs.new items.new result }
{
    let mut so = Lists {
        specs: 0,
        specs_size: 0,
        names: 0,
        names_size: 0,
    };
    for (number, text) in Lines::of(input) {
        match add_line(text, specs, items, so) {
            Ok(more) => so = more,
            Err(reason) => {
                return Gathered {
                    specs: so.specs_size,
                    items: so.names_size,
                    refused: Some(RefusedLine {
                        number,
                        start: start_after(number - 1, input),
                        text,
                        reason,
                    }),
                };
            },
        }
    }
    Gathered {
        specs: so.specs_size,
        items: so.names_size,
        refused: None,
    }
}
