// Reading a spec list: the questions in order, each record in turn, into a table of records by value.
// As it is: (a) an operation is the C interface's number here; question 18 is asked of it, and it is handed on to `parse`.
#![tactic(auto)]

ghost use Rattle.std.specs.Prelude.{◌≡◌, ◌+◌, ◌≤◌, length};
ghost use Rattle.meaning.specs.Limits.{spec_list_bytes, spec_count};
ghost use Rattle.meaning.specs.Lists.{spec_record, read_specs};
ghost use Rattle.promises.specs.Facts.{records};
ghost use Rattle.parse.specs.Places.{Within, SidesWithin};
ghost use Rattle.list.specs.Checked.{checked, numbers_of};
ghost use Rattle.spec_list.specs.Group.{shifted_side, shifted, SpecIn, SpecSays, GroupRead};
ghost use Rattle.spec_list.specs.Table.{blanks};

pub mod record;
pub mod table;

use limits::{SPEC_COUNT, SPEC_LIST_BYTES};
use list::cursor::{Cursor, Record, Step};
use list::refused::{Refused, numbered};
use list::stretch::Stretch;
use parse::types::{Mode, RefSpec, Side};
use record::{SpecRecord, record_of};
use refusal::Refusal;
use sides::SideNumbers;

// The specs of a list, as places in it: how many there are, and these.
#[derive(Clone, Copy)]
pub struct Group {
    pub count: usize,
    pub specs: [SpecRecord; SPEC_COUNT],
}

// A side of a spec that begins at `start`, as a place in the list.
fn shifted_side(start: usize, len: usize, side: Side) -> Side
    requires { Within len side × (start + len ≤ spec_list_bytes) }
    ensures { result ≡ shifted_side start side }
{
    match side {
        Side::Absent => Side::Absent,
        Side::Part(at, n) => Side::Part(start + at, n),
        Side::Head => Side::Head,
    }
}

// A spec of `len` bytes that begins at `start`, as places in the list.
fn shifted(start: usize, len: usize, r: RefSpec) -> RefSpec
    requires { SidesWithin len r × (start + len ≤ spec_list_bytes) }
    ensures { result ≡ shifted start r }
{
    RefSpec {
        mode: r.mode,
        src: shifted_side(start, len, r.src),
        dst: shifted_side(start, len, r.dst),
    }
}

// The spec that a record is, as places in the list: its own questions.
fn spec_in(op: u64, list: &[u8], text: Stretch) -> Result<RefSpec, Refusal>
    requires { (text.at + text.len ≤ length list.now) × (length list.now ≤ spec_list_bytes) }
    ensures { SpecIn op list.now text.at text.len result }
{
    let r = parse::parse(op, text.of(list))?;
    Ok(shifted(text.at, text.len, r))
}

// The spec that stands at a cursor with `count` specs behind it: questions 14, 13, and its own.
fn next_spec(op: u64, list: &[u8], c: Cursor, count: usize) -> Step<RefSpec>
    requires { length list.now ≤ spec_list_bytes }
    ensures { SpecSays op count list.now c.at result }
{
    if list.len() <= c.at {
        return Ok(None);
    }
    if SPEC_COUNT <= count {
        return Err(Refusal::TooManyRecords);
    }
    let Some(r) = c.next(list)? else {
        return Ok(None);
    };
    Ok(Some(Record {
        value: spec_in(op, list, r.value)?,
        next: r.next,
    }))
}

// A table with no specs.
fn no_specs() -> [SpecRecord; SPEC_COUNT]
    ensures { result ≡ blanks spec_count }
{
    let nowhere = SideNumbers {
        kind: 0,
        at: 0,
        len: 0,
    };
    let none = SpecRecord {
        mode: Mode::Normal,
        src: nowhere,
        dst: nowhere,
    };
    [none; SPEC_COUNT]
}

// The records of a spec list, one after the other.
fn each_spec(op: u64, list: &[u8]) -> Result<Group, Refused>
    requires { length list.now ≤ spec_list_bytes }
    ensures { GroupRead list.now result (records (spec_record op) 0 list.now) }
{
    let mut specs = no_specs();
    let mut c = Cursor::new();
    let mut count: usize = 0;
    // As it is: (d) a walk as in `list/src/items.rt`, for the reason given there.
    while let Some(r) = numbered(next_spec(op, list, c, count), count)? {
        specs[count] = record_of(r.value);
        c = r.next;
        count += 1;
    }
    Ok(Group { count, specs })
}

// Reads a spec list for an operation, 0 fetch or 1 push. Inlined, since else the place for its answer is cleared before its table is.
#[inline(always)]
pub fn read_specs(op: u64, list: &[u8]) -> Result<Group, Refused>
    ensures { GroupRead list.now result (read_specs op list.now) }
{
    if 1 < op {
        return Err(Refused::of_list(Refusal::UnknownOperation));
    }
    if SPEC_LIST_BYTES < list.len() {
        return Err(Refused::of_list(Refusal::ListTooLong));
    }
    each_spec(op, list)
}

// The records of a spec list, one after the other, none of them kept.
fn each_checked(op: u64, list: &[u8]) -> Result<usize, Refused>
    requires { length list.now ≤ spec_list_bytes }
    ensures { numbers_of result ≡ checked (records (spec_record op) 0 list.now) }
{
    let mut c = Cursor::new();
    let mut count: usize = 0;
    // As it is: (d) a walk as in `list/src/items.rt`, for the reason given there.
    while let Some(r) = numbered(next_spec(op, list, c, count), count)? {
        c = r.next;
        count += 1;
    }
    Ok(count)
}

// Reads a spec list for an operation without keeping its specs: how many there are, or the refusal.
// As it is: (d) two questions stand here and in `read_specs`; a function that asks them would have as many lines as it takes away.
pub fn check_specs(op: u64, list: &[u8]) -> Result<usize, Refused>
    ensures { numbers_of result ≡ checked (read_specs op list.now) }
{
    if 1 < op {
        return Err(Refused::of_list(Refusal::UnknownOperation));
    }
    if SPEC_LIST_BYTES < list.len() {
        return Err(Refused::of_list(Refusal::ListTooLong));
    }
    each_checked(op, list)
}
