// The search of a listing: each spec on each name, measured, and the pairs that give a row noted, so that they are not searched for again
// when the listing is written. Port of `match_lhs` and `match_rhs` in the crate's match_group/mod.rs.
ghost use Rattle.std.specs.Prelude.{◌≡◌, ◌+◌, ◌*◌, ◌≤◌, ◌<◌, length};
ghost use Rattle.meaning.specs.Limits.{item_list_bytes, name_bytes, item_count, spec_count};
ghost use Rattle.parse.specs.Places.{part_at};
ghost use Rattle.negatives.specs.Negatives.{excluded_by};
ghost use Rattle.row.specs.Rows.{row_most};
ghost use Rattle.match_row.specs.Pairs.{matcher_spec, item_bytes};
ghost use Rattle.match_row.specs.Asking.{Askable, MatcherReady};
ghost use Rattle.search.specs.Hits.{hit_of, hit_most, hit_if, names_give, spec_gives, group_gives, objects_give, names_hits, spec_hits, group_hits, object_hits};
ghost use Rattle.search.specs.Noting.{spec_most, group_most, objects_most, hit_room, PlacesIn, TableReady, Stops, Adds};

use super::listing::Listing;
use super::scope::{Scope, Turn};
use filter::{Filter, next_passing};
use limits::{ITEM_COUNT, SPEC_COUNT};
use match_row::direction::Direction;
use match_row::{item_size, object_size};
use matcher::types::Matcher;
use matcher_table::matcher_at;
use sides::wide;

// Hits of one spec and of the next are so far apart: further than there are item fields.
pub(crate) const HIT_STRIDE: usize = 2 * ITEM_COUNT;

// A table of hits has room for at most so many: each spec as an object source, and one for each name.
pub const HIT_ROOM: usize = SPEC_COUNT + ITEM_COUNT;

// How many bytes rows take, and how many hits are noted; more than there is room for where one was not.
#[derive(Clone, Copy)]
pub struct Found {
    pub size: usize,
    pub hits: usize,
}

// The n bytes that begin at `at`.
pub(crate) fn part<'a>(items: &'a [u8], at: usize, n: usize) -> &'a [u8]
    requires { (at + n ≤ length items.now) × (length items.now ≤ item_list_bytes) }
    ensures { result.now ≡ part_at items.now at n }
{
    let end = at + n;
    &items[at..end]
}

// A hit as it is noted.
// As it is: (d) `u32::try_from(hit)` answers a result, of which no refusal can come here.
fn narrow(hit: usize) -> u32
    requires { hit ≤ hit_most }
    ensures { result ≡ hit }
{
    hit as u32
}

// Notes a hit that takes so many bytes, unless it takes none, and answers how many are noted.
fn note(hits: &mut [u32], count: usize, size: usize, hit: usize) -> usize
    requires { (length hits.old ≤ hit_room) × (hit ≤ hit_most) }
    ensures { Adds hits.old count (hit_if size hit) hits.new result }
{
    if size == 0 {
        return count;
    }
    if hits.len() <= count {
        return hits.len() + 1;
    }
    hits[count] = narrow(hit);
    count + 1
}

// Measures and notes what name j gives in the turn of a spec.
fn name_found<D: Direction>(
    turn: Turn,
    specs: &[u8],
    m: Matcher,
    j: usize,
    name: &[u8],
    negatives: &[u16],
    hits: &mut [u32],
) -> Found
    requires { MatcherReady specs.now m × Askable specs.now negatives.now turn.scope.negatives × (turn.spec ≤ spec_count) × (j < item_count) × (length name.now ≤ name_bytes) × (length hits.old ≤ hit_room) }
    ensures { (result.size ≡ length (item_bytes D.back (excluded_by specs.now negatives.now turn.scope.negatives) turn.spec j name.now (matcher_spec specs.now m))) × (result.size ≤ row_most)
        × Adds hits.old turn.at (hit_if (length (item_bytes D.back (excluded_by specs.now negatives.now turn.scope.negatives) turn.spec j name.now (matcher_spec specs.now m))) (hit_of turn.spec (j + 1))) hits.new result.hits }
{
    let scope = turn.scope;
    let i = turn.spec;
    let size = item_size::<D>(specs, m, i, j, name, negatives, scope.negatives);
    let known = note(hits, turn.at, size, HIT_STRIDE * i + (j + 1));
    Found { size, hits: known }
}

// Measures and notes what the names that pass a filter give in the turn of a spec.
fn names_found<D: Direction>(
    turn: Turn,
    specs: &[u8],
    m: Matcher,
    f: Filter,
    items: &[u8],
    places: &[u16],
    negatives: &[u16],
    hits: &mut [u32],
) -> Found
    requires { MatcherReady specs.now m × Stops D.back specs.now m f × (turn.spec ≤ spec_count) × PlacesIn items.now places.now turn.scope.names × Askable specs.now negatives.now turn.scope.negatives × (length hits.old ≤ hit_room) }
    ensures { (result.size ≡ length (names_give D.back (excluded_by specs.now negatives.now turn.scope.negatives) (matcher_spec specs.now m) items.now places.now turn.scope.names turn.spec)) × (result.size ≤ spec_most)
        × Adds hits.old turn.at (names_hits D.back (excluded_by specs.now negatives.now turn.scope.negatives) (matcher_spec specs.now m) items.now places.now turn.scope.names turn.spec) hits.new result.hits }
{
    let scope = turn.scope;
    let i = turn.spec;
    let n = scope.names;
    let mut size = 0;
    let mut known = turn.at;
    let mut j = next_passing(f, items, places, n, 0);
    // As it is: (d) the next name is the next that passes, which no range counts.
    while j < n {
        let at = wide(places[2 * j]);
        let len = wide(places[2 * j + 1]);
        let next = Turn {
            scope,
            spec: i,
            at: known,
        };
        let x = name_found::<D>(next, specs, m, j, part(items, at, len), negatives, hits);
        known = x.hits;
        size += x.size;
        j = next_passing(f, items, places, n, j + 1);
    }
    Found { size, hits: known }
}

// Measures and notes what one spec of a table gives in its turn.
pub fn spec_found<D: Listing>(
    turn: Turn,
    specs: &[u8],
    table: &[u16],
    items: &[u8],
    places: &[u16],
    negatives: &[u16],
    hits: &mut [u32],
) -> Found
    requires { TableReady specs.now table.now turn.scope.specs × (turn.spec < turn.scope.specs) × PlacesIn items.now places.now turn.scope.names × Askable specs.now negatives.now turn.scope.negatives × (length hits.old ≤ hit_room) }
    ensures { (result.size ≡ length (spec_gives D.back (excluded_by specs.now negatives.now turn.scope.negatives) specs.now table.now items.now places.now turn.scope.names turn.spec)) × (result.size ≤ spec_most)
        × Adds hits.old turn.at (spec_hits D.back (excluded_by specs.now negatives.now turn.scope.negatives) specs.now table.now items.now places.now turn.scope.names turn.spec) hits.new result.hits }
{
    let scope = turn.scope;
    let m = matcher_at(table, turn.spec);
    let f = D::filter(specs, m);
    // No name passes, as none does for a negative spec.
    if f.most < f.least {
        return Found {
            size: 0,
            hits: turn.at,
        };
    }
    names_found::<D>(turn, specs, m, f, items, places, negatives, hits)
}

// Measures what all specs of a table give, and notes it after the first `noted` hits.
pub fn specs_found<D: Listing>(
    scope: Scope,
    specs: &[u8],
    table: &[u16],
    items: &[u8],
    places: &[u16],
    negatives: &[u16],
    hits: &mut [u32],
    noted: usize,
) -> Found
    requires { TableReady specs.now table.now scope.specs × PlacesIn items.now places.now scope.names × Askable specs.now negatives.now scope.negatives × (length hits.old ≤ hit_room) }
    ensures { (result.size ≡ length (group_gives D.back (excluded_by specs.now negatives.now scope.negatives) specs.now table.now scope.specs items.now places.now scope.names)) × (result.size ≤ group_most)
        × Adds hits.old noted (group_hits D.back (excluded_by specs.now negatives.now scope.negatives) specs.now table.now scope.specs items.now places.now scope.names) hits.new result.hits }
{
    let group = scope.specs;
    let mut size = 0;
    let mut known = noted;
    for i in 0..group {
        let turn = Turn {
            scope,
            spec: i,
            at: known,
        };
        let x = spec_found::<D>(turn, specs, table, items, places, negatives, hits);
        known = x.hits;
        size += x.size;
    }
    Found { size, hits: known }
}

// Measures and notes what all specs of a table give as object sources.
pub fn objects_found(specs: &[u8], table: &[u16], group: usize, hits: &mut [u32]) -> Found
    requires { TableReady specs.now table.now group × (length hits.old ≤ hit_room) }
    ensures { (result.size ≡ length (objects_give specs.now table.now group)) × (result.size ≤ objects_most)
        × Adds hits.old 0 (object_hits specs.now table.now group) hits.new result.hits }
{
    let mut size = 0;
    let mut noted = 0;
    for i in 0..group {
        let m = matcher_at(table, i);
        let one = object_size(specs, m, i);
        noted = note(hits, noted, one, HIT_STRIDE * i);
        size += one;
    }
    Found { size, hits: noted }
}
