// The specs of a group noted once for all names: their matchers as flat numbers, and the negatives apart. Port of how `match_lhs` and
// `match_rhs` make the matchers in the crate's match_group/mod.rs.
#![tactic(auto)]

ghost use Rattle.std.specs.Prelude.{◌+◌, ◌*◌, ◌≤◌, length, take};
ghost use Rattle.meaning.specs.Limits.{spec_list_bytes, spec_count};
ghost use Rattle.parse.specs.Places.{spec_meant, SidesWithin};
ghost use Rattle.matcher.specs.Matching.{MatcherWithin};
ghost use Rattle.matcher_table.specs.Numbers.{matcher_numbers};
ghost use Rattle.spec_list.specs.Table.{spec_from_record};
ghost use Rattle.spec_list.specs.Group.{record_meant};
ghost use Rattle.negatives.specs.Negatives.{negative_numbers};
ghost use Rattle.negatives.specs.Making.{Added};
ghost use Rattle.group_tables.specs.Standing.{StandsFor, NotedAt, Notable, NotedAll};

use limits::SPEC_COUNT;
use matcher::matcher;
use matcher::types::Matcher;
use matcher_table::{no_matcher, put_matcher};
use negatives::put_if_negative;
use parse::types::RefSpec;
use spec_list::record::{SpecRecord, spec_from};
use spec_list::table::spec_at;

// What stands for a spec in a table.
fn matcher_for(specs: &[u8], r: RefSpec) -> Matcher
    requires { SidesWithin (length specs.now) r × (length specs.now ≤ spec_list_bytes) }
    ensures { StandsFor specs.now (spec_meant specs.now r) result × MatcherWithin spec_list_bytes result }
{
    let mode = r.mode;
    if mode.is_negative() {
        return no_matcher();
    }
    matcher(specs, r)
}

// Notes a spec as number i, and among the k negatives if it is one; how many negatives there are then.
pub fn note(
    specs: &[u8],
    q: SpecRecord,
    i: usize,
    table: &mut [u16],
    negatives: &mut [u16],
    k: usize,
) -> usize
    requires { SidesWithin (length specs.now) (spec_from_record q) × (length specs.now ≤ spec_list_bytes) × (matcher_numbers * i + matcher_numbers ≤ length table.old) × (negative_numbers * k + negative_numbers ≤ length negatives.old) }
    ensures { NotedAt specs.now (record_meant specs.now q) table.old i table.new × Added specs.now (record_meant specs.now q) negatives.old k negatives.new result }
{
    let r = spec_from(q);
    put_matcher(table, i, matcher_for(specs, r));
    put_if_negative(specs, r, k, negatives)
}

// Notes the specs of a table of records that is lent, each handed to `note`; how many negatives there are.
fn note_specs(
    specs: &[u8],
    records: &[SpecRecord],
    table: &mut [u16],
    negatives: &mut [u16],
) -> usize
    requires { Notable specs.now records.now × (matcher_numbers * length records.now ≤ length table.old) × (negative_numbers * length records.now ≤ length negatives.old) }
    ensures { NotedAll specs.now records.now table.new negatives.new result }
{
    let mut count = 0;
    for i in 0..records.len() {
        count = note(specs, spec_at(records, i), i, table, negatives, count);
    }
    count
}

// Notes the specs of a group, the first n records of a table, which are lent; how many negatives there are. What stands in the two tables
// after these is left open.
pub fn note_group(
    specs: &[u8],
    records: [SpecRecord; SPEC_COUNT],
    n: usize,
    table: &mut [u16],
    negatives: &mut [u16],
) -> usize
    requires { (n ≤ spec_count) × Notable specs.now (take n records) × (matcher_numbers * n ≤ length table.old) × (negative_numbers * n ≤ length negatives.old) }
    ensures { NotedAll specs.now (take n records) table.new negatives.new result }
{
    note_specs(specs, &records[..n], table, negatives)
}
