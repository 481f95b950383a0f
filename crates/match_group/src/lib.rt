// The forward and the reverse listing of items under specs, as row lists. Port of the crate's match_group/mod.rs.
// As it is: (a) an operation is the C interface's number here; `spec_list` asks question 18 of it, and here it is handed on.
#![tactic(auto)]

ghost use Rattle.std.specs.Prelude.{◌*◌, ◌≤◌, length, take};
ghost use Rattle.meaning.specs.Buffers.{MeetsOne};
ghost use Rattle.meaning.specs.Entries.{match_lhs, match_rhs};
ghost use Rattle.spec_list.specs.Group.{group_meant};
ghost use Rattle.matcher_table.specs.Numbers.{matcher_numbers};
ghost use Rattle.negatives.specs.Negatives.{negative_numbers};
ghost use Rattle.group_tables.specs.Reading.{Grouped};
ghost use Rattle.match_group.specs.Listing.{few_specs, listing, listing_answer};

mod group;

use buffer::written::{Written, refused};
use group::list_group;
use group_tables::note_group;
use limits::SPEC_COUNT;
use list::places::{PLACES_ROOM, read_places};
use match_row::direction::{Forward, Reverse};
use matcher_table::MATCHER_NUMBERS;
use negatives::NEGATIVE_NUMBERS;
use search::listing::Listing;
use search::scope::Scope;
use spec_list::read_specs;
use spec_list::record::SpecRecord;

// How many specs are few.
const FEW: usize = 16;

// The tables of a group have so many numbers, those of few specs so many.
const TABLE: usize = MATCHER_NUMBERS * SPEC_COUNT;

const NEGATIVES: usize = NEGATIVE_NUMBERS * SPEC_COUNT;

const FEW_TABLE: usize = MATCHER_NUMBERS * FEW;

const FEW_NEGATIVES: usize = NEGATIVE_NUMBERS * FEW;

// The listing of a group, the first n records of a table, which is noted in tables that have room for it.
fn list_in<D: Listing>(
    specs: &[u8],
    records: [SpecRecord; SPEC_COUNT],
    n: usize,
    items: &[u8],
    table: &mut [u16],
    negatives: &mut [u16],
    out: &mut [u8],
) -> Written
    requires { Grouped specs.now records n × (matcher_numbers * n ≤ length table.old) × (negative_numbers * n ≤ length negatives.old) }
    ensures { MeetsOne (listing D.back (group_meant specs.now (take n records)) items.now) out.old out.new result.refusal result.record result.length }
{
    let count = note_group(specs, records, n, table, negatives);
    // As it is: (a) no heap, so a table is an array of fixed size.
    let mut places = [0u16; PLACES_ROOM];
    let names = match read_places(items, &mut places) {
        Ok(names) => names,
        Err(e) => return refused(e.refusal.number(), e.record),
    };
    let scope = Scope {
        specs: n,
        names,
        negatives: count,
    };
    list_group::<D>(scope, specs, table, items, &places, negatives, out)
}

// The listing of a group of few specs: small tables are sooner cleared.
fn list_few<D: Listing>(
    specs: &[u8],
    records: [SpecRecord; SPEC_COUNT],
    n: usize,
    items: &[u8],
    out: &mut [u8],
) -> Written
    requires { Grouped specs.now records n × (n ≤ few_specs) }
    ensures { MeetsOne (listing D.back (group_meant specs.now (take n records)) items.now) out.old out.new result.refusal result.record result.length }
{
    // As it is: (a) no heap, so a table is an array of fixed size.
    let mut table = [0u16; FEW_TABLE];
    // As it is: (a) no heap, so a table is an array of fixed size.
    let mut negatives = [0u16; FEW_NEGATIVES];
    list_in::<D>(specs, records, n, items, &mut table, &mut negatives, out)
}

// The listing of a group.
fn list_many<D: Listing>(
    specs: &[u8],
    records: [SpecRecord; SPEC_COUNT],
    n: usize,
    items: &[u8],
    out: &mut [u8],
) -> Written
    requires { Grouped specs.now records n }
    ensures { MeetsOne (listing D.back (group_meant specs.now (take n records)) items.now) out.old out.new result.refusal result.record result.length }
{
    // As it is: (a) no heap, so a table is an array of fixed size.
    let mut table = [0u16; TABLE];
    // As it is: (a) no heap, so a table is an array of fixed size.
    let mut negatives = [0u16; NEGATIVES];
    list_in::<D>(specs, records, n, items, &mut table, &mut negatives, out)
}

// The listing of a spec list and an item list, forward or in reverse.
fn list<D: Listing>(op: u64, specs: &[u8], items: &[u8], out: &mut [u8]) -> Written
    ensures { MeetsOne (listing_answer D.back op specs.now items.now) out.old out.new result.refusal result.record result.length }
{
    let g = match read_specs(op, specs) {
        Ok(g) => g,
        Err(e) => return refused(e.refusal.number(), e.record),
    };
    if g.count <= FEW {
        list_few::<D>(specs, g.specs, g.count, items, out)
    } else {
        list_many::<D>(specs, g.specs, g.count, items, out)
    }
}

// The forward listing of the items under the specs, as a row list.
pub fn match_lhs(op: u64, specs: &[u8], items: &[u8], out: &mut [u8]) -> Written
    ensures { MeetsOne (match_lhs op specs.now items.now) out.old out.new result.refusal result.record result.length }
{
    list::<Forward>(op, specs, items, out)
}

// The reverse listing of the items under the specs, as a row list.
pub fn match_rhs(op: u64, specs: &[u8], items: &[u8], out: &mut [u8]) -> Written
    ensures { MeetsOne (match_rhs op specs.now items.now) out.old out.new result.refusal result.record result.length }
{
    list::<Reverse>(op, specs, items, out)
}
