//! The source view: the bytes that a forward row's source has, as a part of the item list or of the spec list.
// As it is: (a) an operation is the C interface's number here; `spec_list` asks question 18 of it, and here it is handed on.
#![tactic(auto)]

ghost use Rattle.std.specs.Prelude.{◌≡◌, ◌+◌, ◌≤◌, length, take, drop};
ghost use Rattle.meaning.specs.Number.{read_text};
ghost use Rattle.meaning.specs.View.{source_view, view_text, view_numbers};
ghost use Rattle.parse.specs.Places.{part_at, Within};
ghost use Rattle.view.specs.Places.{extent_of, extent_at, part_of, part_told, digits_at, object_text, side_digits, spec_digits};

use list::cursor::Cursor;
use list::refused::Refused;
use list::stretch::Stretch;
use parse::types::Side;
use refusal::Refusal;

// A part of a lent list in numbers: a refusal's or 0, the record that it carries, the list (0 the items, 1 the specs), where the part
// begins in it and how many bytes it has. A field without a meaning is 0.
// As it is: (a) C reads this record, whose fields are numbers of 64 bits.
#[repr(C)]
#[derive(Clone, Copy)]
pub struct Part {
    pub refusal: u64,
    pub record: u64,
    pub list: u64,
    pub start: u64,
    pub length: u64,
}

// A list that is lent: the items, 0, or the specs, 1.
#[derive(Clone, Copy, Debug, PartialEq, Eq)]
enum Lent {
    Items,
    Specs,
}

// A part of a lent list.
#[derive(Clone, Copy)]
struct Viewed {
    list: Lent,
    text: Stretch,
}

// The part in numbers that a view is; a refused one is empty.
fn told(view: Result<Viewed, Refused>) -> Part
    ensures { result ≡ part_told view }
{
    match view {
        Ok(v) => Part {
            refusal: 0,
            record: 0,
            list: match v.list {
                Lent::Items => 0,
                Lent::Specs => 1,
            },
            start: v.text.at as u64,
            length: v.text.len as u64,
        },
        Err(e) => Part {
            refusal: e.refusal.number(),
            record: e.record,
            list: 0,
            start: 0,
            length: 0,
        },
    }
}

// The refusal of what the lists do not have.
const OUTSIDE: Refused = Refused {
    refusal: Refusal::RowOutside,
    record: 0,
};

// The record that begins at `at`; no bytes at the list's end where there is none.
fn next_record(list: &[u8], at: usize) -> Stretch
    ensures { (result ≡ extent_of list.now (read_text (drop at list.now))) × (result.at + result.len ≤ length list.now) }
{
    let c = Cursor { at };
    match c.next(list) {
        Ok(Some(r)) => r.value,
        Ok(None) | Err(_) => Stretch {
            at: list.len(),
            len: 0,
        },
    }
}

// Record number n.
fn record_at(list: &[u8], n: usize) -> Stretch
    ensures { (result ≡ extent_at list.now n) × (result.at + result.len ≤ length list.now) }
{
    let mut at = 0;
    for _i in 0..n {
        let e = next_record(list, at);
        at = e.at + e.len;
    }
    next_record(list, at)
}

// The n bytes at a place of the spec that begins at `start`, where they are an object id; its digits are of either case, and are viewed as
// they are spelled.
fn digits(specs: &[u8], start: usize, at: usize, n: usize) -> Result<Viewed, Refused>
    requires { start + at + n ≤ length specs.now }
    ensures { part_told result ≡ digits_at (start + at) (object_text (part_at specs.now (start + at) n)) }
{
    let text = Stretch {
        at: start + at,
        len: n,
    };
    if !hex_digits::object_id(text.of(specs)) {
        return Err(OUTSIDE);
    }
    Ok(Viewed {
        list: Lent::Specs,
        text,
    })
}

// The digits of the source of a spec that begins at `start`.
fn side_digits(specs: &[u8], start: usize, len: usize, src: Side) -> Result<Viewed, Refused>
    requires { (start + len ≤ length specs.now) × Within len src }
    ensures { part_told result ≡ side_digits specs.now start src }
{
    match src {
        Side::Part(at, n) => digits(specs, start, at, n),
        Side::Absent | Side::Head => Err(OUTSIDE),
    }
}

// The digits of the object source of spec number n, as the spec spells them; 16 where its source is no object id.
fn object_part(op: u64, specs: &[u8], n: usize) -> Result<Viewed, Refused>
    ensures { part_told result ≡ spec_digits op specs.now (extent_at specs.now n) }
{
    let e = record_at(specs, n);
    match parse::parse(op, e.of(specs)) {
        Ok(r) => side_digits(specs, e.at, e.len, r.src),
        Err(_) => Err(OUTSIDE),
    }
}

// The part that a forward row's source is: field 0 takes the digits of the spec's object source, a higher field that item's name.
fn part_viewed(
    op: u64,
    specs: &[u8],
    items: &[u8],
    field: usize,
    n: usize,
) -> Result<Viewed, Refused>
    ensures { part_told result ≡ part_of (source_view op specs.now items.now field n) }
{
    let group = spec_list::check_specs(op, specs)?;
    let names = list::items::read_items(items)?;
    if group <= n {
        return Err(OUTSIDE);
    }
    if field == 0 {
        return object_part(op, specs, n);
    }
    if names < field {
        return Err(OUTSIDE);
    }
    Ok(Viewed {
        list: Lent::Items,
        text: record_at(items, field - 1),
    })
}

// That part, in numbers.
pub fn source(op: u64, specs: &[u8], items: &[u8], item_field: u64, spec: u64) -> Part
    ensures { result ≡ part_of (source_view op specs.now items.now item_field spec) }
{
    told(part_viewed(op, specs, items, item_field as usize, spec as usize))
}

// The bytes of a part of a list.
// As it is: (a) the numbers of a part are those of the C interface.
fn bytes(list: &[u8], start: u64, len: u64) -> &[u8]
    requires { start + len ≤ length list.now }
    ensures { result.now ≡ take len (drop start list.now) }
{
    let at = start as usize;
    let end = at + len as usize;
    &list[at..end]
}

// The bytes of that part, out of the list that the item field chooses; the numbers are the refusal's and the record's that it carries, and
// a refused view has no bytes.
pub fn view<'a>(
    op: u64,
    specs: &'a [u8],
    items: &'a [u8],
    item_field: u64,
    spec: u64,
    number: &mut u64,
    record: &mut u64,
) -> &'a [u8]
    ensures { (result.now ≡ view_text (source_view op specs.now items.now item_field spec) specs.now items.now)
        × (number.new ≡ (view_numbers (source_view op specs.now items.now item_field spec)).refusal)
        × («record».new ≡ (view_numbers (source_view op specs.now items.now item_field spec)).record_number) }
{
    let p = source(op, specs, items, item_field, spec);
    *number = p.refusal;
    *record = p.record;
    if p.refusal != 0 {
        return bytes(items, 0, 0);
    }
    if item_field == 0 {
        return bytes(specs, p.start, p.length);
    }
    bytes(items, p.start, p.length)
}
