// Writing the rows of hits.
ghost use Rattle.std.specs.Prelude.{◌≡◌, ◌+◌, ◌*◌, ◌/◌, ◌%◌, ◌≤◌, ◌<◌, length};
ghost use Rattle.meaning.specs.Bytes.{each};
ghost use Rattle.meaning.specs.Limits.{spec_count};
ghost use Rattle.match_row.specs.Pairs.{matcher_spec};
ghost use Rattle.buffer.specs.Splice.{Puts};
ghost use Rattle.match_row.specs.Asking.{MatcherReady};
ghost use Rattle.search.specs.Hits.{hit_stride, field_start, field_size, under_spec, hit_bytes};
ghost use Rattle.search.specs.Noting.{PlacesIn, TableReady, AllGood};

use super::found::{HIT_STRIDE, part};
use super::scope::Scope;
use match_row::direction::Direction;
use match_row::put_field;
use matcher::types::Matcher;
use matcher_table::matcher_at;
use sides::wide;

// A hit that was noted.
// As it is: (d) a `usize` is made of a `u32` by no `From`.
fn wider(hit: u32) -> usize
    ensures { result ≡ hit }
{
    hit as usize
}

// Where the name of an item field begins.
fn start_of(places: &[u16], field: usize) -> usize
    requires { 2 * field ≤ length places.now }
    ensures { result ≡ field_start places.now field }
{
    if field == 0 {
        return 0;
    }
    let j = field - 1;
    wide(places[2 * j])
}

// How many bytes the name of an item field has; no item has none.
fn size_of(places: &[u16], field: usize) -> usize
    requires { 2 * field ≤ length places.now }
    ensures { result ≡ field_size places.now field }
{
    if field == 0 {
        return 0;
    }
    let j = field - 1;
    wide(places[2 * j + 1])
}

// Writes what a hit gives under the spec of a matcher, and answers the place after it.
fn put_hit<D: Direction>(
    out: &mut [u8],
    at: usize,
    scope: Scope,
    specs: &[u8],
    m: Matcher,
    items: &[u8],
    places: &[u16],
    hit: usize,
) -> usize
    requires { MatcherReady specs.now m × PlacesIn items.now places.now scope.names × (hit / hit_stride ≤ spec_count) × (hit % hit_stride ≤ scope.names) × (0 < length (under_spec D.back items.now places.now hit (matcher_spec specs.now m)))
        × (at + length (under_spec D.back items.now places.now hit (matcher_spec specs.now m)) ≤ length out.old) }
    ensures { Puts out.old at (under_spec D.back items.now places.now hit (matcher_spec specs.now m)) out.new result }
{
    let field = hit % HIT_STRIDE;
    let start = start_of(places, field);
    let size = size_of(places, field);
    put_field::<D>(
        out,
        at,
        specs,
        m,
        hit / HIT_STRIDE,
        field,
        part(items, start, size),
    )
}

// Writes what some hits give, and answers the place after it.
pub fn put_hits<D: Direction>(
    out: &mut [u8],
    at: usize,
    scope: Scope,
    specs: &[u8],
    table: &[u16],
    items: &[u8],
    places: &[u16],
    hits: &[u32],
) -> usize
    requires { TableReady specs.now table.now scope.specs × PlacesIn items.now places.now scope.names × AllGood D.back specs.now table.now scope.specs items.now places.now scope.names hits.now
        × (at + length (each hits.now (hit_bytes D.back specs.now table.now items.now places.now)) ≤ length out.old) }
    ensures { Puts out.old at (each hits.now (hit_bytes D.back specs.now table.now items.now places.now)) out.new result }
{
    if hits.len() == 0 {
        return at;
    }
    let mut end = at;
    let mut last = 0;
    let mut m = matcher_at(table, 0);
    for noted in hits {
        let hit = wider(*noted);
        let i = hit / HIT_STRIDE;
        // Hits of one spec stand together, so its matcher is read once.
        if i != last {
            m = matcher_at(table, i);
            last = i;
        }
        end = put_hit::<D>(out, end, scope, specs, m, items, places, hit);
    }
    end
}
