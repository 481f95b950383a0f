// The table of a group, lent as a slice of records: thin functions, each of which hands on one record.
ghost use Rattle.std.specs.Prelude.{◌≡◌, ◌<◌, ◌≤◌, length, take};
ghost use Rattle.meaning.specs.Limits.{spec_count};
ghost use Rattle.spec_list.specs.Table.{record_at};

use super::record::SpecRecord;
use limits::SPEC_COUNT;

// Record number i of a table that is lent.
pub fn spec_at(table: &[SpecRecord], i: usize) -> SpecRecord
    requires { i < length table.now }
    ensures { result ≡ record_at table.now i }
{
    table[i]
}

// Record number i of a group: the first n records of its table, which came by value, are lent.
pub fn spec_of(table: [SpecRecord; SPEC_COUNT], n: usize, i: usize) -> SpecRecord
    requires { (n ≤ spec_count) × (i < n) }
    ensures { result ≡ record_at (take n table) i }
{
    spec_at(&table[..n], i)
}
