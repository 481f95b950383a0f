// What the two listings search in their own ways.
ghost use Rattle.std.specs.Prelude.{◌≡◌, ◌≤◌, length};
ghost use Rattle.match_row.specs.Asking.{MatcherReady};
ghost use Rattle.search.specs.Hits.{first_bytes, first_hits};
ghost use Rattle.search.specs.Noting.{objects_most, hit_room, TableReady, Stops, Adds};

use super::found::{Found, objects_found};
use filter::{Filter, forward_filter, reverse_filter};
use match_row::direction::{Direction, Forward, Reverse};
use matcher::types::Matcher;

// A listing that is searched.
pub trait Listing: Direction {
    // The filter of a spec's rows.
    fn filter(specs: &[u8], m: Matcher) -> Filter
        requires { MatcherReady specs.now m }
        ensures { Stops Self.back specs.now m result };

    // Measures and notes what comes first: forward, the rows of object sources, whatever the items.
    fn first_found(specs: &[u8], table: &[u16], group: usize, hits: &mut [u32]) -> Found
        requires { TableReady specs.now table.now group × (length hits.old ≤ hit_room) }
        ensures { (result.size ≡ length (first_bytes Self.back specs.now table.now group)) × (result.size ≤ objects_most)
            × Adds hits.old 0 (first_hits Self.back specs.now table.now group) hits.new result.hits };
}

impl Listing for Forward {
    fn filter(specs: &[u8], m: Matcher) -> Filter {
        forward_filter(specs, m)
    }

    fn first_found(specs: &[u8], table: &[u16], group: usize, hits: &mut [u32]) -> Found {
        objects_found(specs, table, group, hits)
    }
}

impl Listing for Reverse {
    fn filter(specs: &[u8], m: Matcher) -> Filter {
        reverse_filter(specs, m)
    }

    fn first_found(_specs: &[u8], _table: &[u16], _group: usize, _hits: &mut [u32]) -> Found {
        Found { size: 0, hits: 0 }
    }
}
