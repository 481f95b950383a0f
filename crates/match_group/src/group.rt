// A listing of a group that was read: measured, and its hits noted; then written.
ghost use Rattle.std.specs.Prelude.{◌≡◌, [], ◌∷◌, ◌+◌, ◌≤◌, ◌<◌, length};
ghost use Rattle.std.proofs.Math.Option.{some};
ghost use Rattle.meaning.specs.Spec.{accepted};
ghost use Rattle.meaning.specs.Buffers.{MeetsOne};
ghost use Rattle.buffer.specs.Splice.{splice, Puts};
ghost use Rattle.negatives.specs.Negatives.{excluded_by};
ghost use Rattle.match_row.specs.Asking.{Askable};
ghost use Rattle.search.specs.Hits.{spec_gives, first_hits};
ghost use Rattle.search.specs.Noting.{hit_room, PlacesIn, TableReady};
ghost use Rattle.match_group.specs.Listing.{table_bytes, table_hits, Noted};

use buffer::written::{Written, done, short};
use search::found::{HIT_ROOM, spec_found, specs_found};
use search::listing::Listing;
use search::put::put_hits;
use search::scope::{Scope, Turn};

// The hits that are noted: how many of them are of object sources, which stand first, and how many all are; more than there is room for
// where one was not noted.
#[derive(Clone, Copy)]
struct Notes {
    scope: Scope,
    objects: usize,
    all: usize,
}

// Writes what one spec gives in its turn, by another search for its hits, of which there are no more than names. Answers the place after it.
fn put_spec<D: Listing>(
    out: &mut [u8],
    specs: &[u8],
    table: &[u16],
    items: &[u8],
    places: &[u16],
    negatives: &[u16],
    hits: &mut [u32],
    turn: Turn,
) -> usize
    requires { TableReady specs.now table.now turn.scope.specs × PlacesIn items.now places.now turn.scope.names × Askable specs.now negatives.now turn.scope.negatives × (turn.spec < turn.scope.specs) × (turn.scope.names ≤ length hits.old) × (length hits.old ≤ hit_room)
        × (turn.at + length (spec_gives D.back (excluded_by specs.now negatives.now turn.scope.negatives) specs.now table.now items.now places.now turn.scope.names turn.spec) ≤ length out.old) }
    ensures { Puts out.old turn.at (spec_gives D.back (excluded_by specs.now negatives.now turn.scope.negatives) specs.now table.now items.now places.now turn.scope.names turn.spec) out.new result × (length hits.new ≡ length hits.old) }
{
    let scope = turn.scope;
    let search = Turn {
        scope,
        spec: turn.spec,
        at: 0,
    };
    let x = spec_found::<D>(search, specs, table, items, places, negatives, hits);
    let noted = x.hits;
    put_hits::<D>(
        out,
        turn.at,
        scope,
        specs,
        table,
        items,
        places,
        &hits[..noted],
    )
}

// Writes a listing not all of whose hits are noted: what comes first by its hits, and what the specs give, one after the other.
fn put_again<D: Listing>(
    out: &mut [u8],
    specs: &[u8],
    table: &[u16],
    items: &[u8],
    places: &[u16],
    negatives: &[u16],
    hits: &mut [u32],
    notes: Notes,
)
    requires { TableReady specs.now table.now notes.scope.specs × PlacesIn items.now places.now notes.scope.names × Askable specs.now negatives.now notes.scope.negatives × (notes.scope.names ≤ length hits.old) × (length hits.old ≤ hit_room)
        × Noted hits.old notes.objects (first_hits D.back specs.now table.now notes.scope.specs) × (notes.objects ≤ length hits.old)
        × (length (table_bytes D.back (excluded_by specs.now negatives.now notes.scope.negatives) specs.now table.now notes.scope.specs items.now places.now notes.scope.names) ≤ length out.old) }
    ensures { out.new ≡ splice out.old 0 (table_bytes D.back (excluded_by specs.now negatives.now notes.scope.negatives) specs.now table.now notes.scope.specs items.now places.now notes.scope.names) }
{
    let scope = notes.scope;
    let objects = notes.objects;
    let group = scope.specs;
    let mut end = put_hits::<D>(out, 0, scope, specs, table, items, places, &hits[..objects]);
    for i in 0..group {
        let turn = Turn {
            scope,
            spec: i,
            at: end,
        };
        end = put_spec::<D>(out, specs, table, items, places, negatives, hits, turn);
    }
}

// Writes a listing at the start of the buffer: by its hits, or where not all are noted by another search for them.
fn put_listing<D: Listing>(
    out: &mut [u8],
    specs: &[u8],
    table: &[u16],
    items: &[u8],
    places: &[u16],
    negatives: &[u16],
    hits: &mut [u32],
    notes: Notes,
)
    requires { TableReady specs.now table.now notes.scope.specs × PlacesIn items.now places.now notes.scope.names × Askable specs.now negatives.now notes.scope.negatives × (notes.scope.names ≤ length hits.old) × (length hits.old ≤ hit_room)
        × Noted hits.old notes.objects (first_hits D.back specs.now table.now notes.scope.specs) × (notes.objects ≤ length hits.old)
        × Noted hits.old notes.all (table_hits D.back (excluded_by specs.now negatives.now notes.scope.negatives) specs.now table.now notes.scope.specs items.now places.now notes.scope.names)
        × (length (table_bytes D.back (excluded_by specs.now negatives.now notes.scope.negatives) specs.now table.now notes.scope.specs items.now places.now notes.scope.names) ≤ length out.old) }
    ensures { out.new ≡ splice out.old 0 (table_bytes D.back (excluded_by specs.now negatives.now notes.scope.negatives) specs.now table.now notes.scope.specs items.now places.now notes.scope.names) }
{
    let scope = notes.scope;
    let all = notes.all;
    if hits.len() < all {
        put_again::<D>(out, specs, table, items, places, negatives, hits, notes);
        return;
    }
    put_hits::<D>(out, 0, scope, specs, table, items, places, &hits[..all]);
}

// A listing whose hits are noted in a table with room for those of objects, and for those of a spec.
fn list_rows<D: Listing>(
    scope: Scope,
    specs: &[u8],
    table: &[u16],
    items: &[u8],
    places: &[u16],
    negatives: &[u16],
    hits: &mut [u32],
    out: &mut [u8],
) -> Written
    requires { TableReady specs.now table.now scope.specs × PlacesIn items.now places.now scope.names × Askable specs.now negatives.now scope.negatives × (scope.specs ≤ length hits.old) × (scope.names ≤ length hits.old) × (length hits.old ≤ hit_room) }
    ensures { MeetsOne (accepted (some (table_bytes D.back (excluded_by specs.now negatives.now scope.negatives) specs.now table.now scope.specs items.now places.now scope.names) ∷ [])) out.old out.new result.refusal result.record result.length }
{
    let objects = D::first_found(specs, table, scope.specs, hits);
    let found = specs_found::<D>(
        scope,
        specs,
        table,
        items,
        places,
        negatives,
        hits,
        objects.hits,
    );
    let size = objects.size + found.size;
    if out.len() < size {
        return short(size);
    }
    let notes = Notes {
        scope,
        objects: objects.hits,
        all: found.hits,
    };
    put_listing::<D>(out, specs, table, items, places, negatives, hits, notes);
    done(size)
}

// The listing of a group in its tables, with room for hits.
pub(crate) fn list_group<D: Listing>(
    scope: Scope,
    specs: &[u8],
    table: &[u16],
    items: &[u8],
    places: &[u16],
    negatives: &[u16],
    out: &mut [u8],
) -> Written
    requires { TableReady specs.now table.now scope.specs × PlacesIn items.now places.now scope.names × Askable specs.now negatives.now scope.negatives }
    ensures { MeetsOne (accepted (some (table_bytes D.back (excluded_by specs.now negatives.now scope.negatives) specs.now table.now scope.specs items.now places.now scope.names) ∷ [])) out.old out.new result.refusal result.record result.length }
{
    // As it is: (a) no heap, so a table is an array of fixed size.
    let mut hits = [0u32; HIT_ROOM];
    list_rows::<D>(
        scope, specs, table, items, places, negatives, &mut hits, out,
    )
}
