// The prefixes of a record, held to a prefix list.
ghost use Rattle.std.specs.Prelude.{◌≡◌, List, ◌≤◌, length};
ghost use Rattle.meaning.specs.Bytes.{Text};
ghost use Rattle.meaning.specs.Limits.{largest_number};
ghost use Rattle.meaning.specs.Number.{record_bytes};
ghost use Rattle.recorded.specs.Record.{prefixes_bytes};
ghost use Rattle.recorded.specs.Field.{field_at, PassedText, PassedRecord};

use super::field::text_field;

// After a prefix that agrees, the places of the next field and of the list's next record.
#[derive(Clone, Copy)]
struct Passed {
    next: usize,
    at: usize,
}

// The text of n bytes at `from` in the list.
fn prefix_at(told: &[u8], next: usize, list: &[u8], from: usize, n: usize) -> Option<Passed>
    requires { (next ≤ length told.now) × (from ≤ length list.now) }
    ensures { PassedText told.now next list.now from n result }
{
    if list.len() - from < n {
        return None;
    }
    let at = from + n;
    let next = text_field(told, next, &list[from..at])?;
    Some(Passed { next, at })
}

// The prefix that stands at `at` in the list.
fn prefix_passes(told: &[u8], next: usize, list: &[u8], at: usize) -> Option<Passed>
    requires { next ≤ length told.now }
    ensures { PassedRecord told.now next list.now at result }
{
    let length = number::read(list, at)?;
    prefix_at(told, next, list, length.next, length.value)
}

// As many prefixes as the record says, and no more in the list.
pub(crate) fn list_field(told: &[u8], start: usize, list: &[u8]) -> Option<usize>
    requires { length list.now ≤ largest_number }
    ensures { (l : List Text) → list.now ≡ record_bytes l → result ≡ field_at told.now start (prefixes_bytes l) }
{
    let many = *told.get(start)?;
    let mut passed = Passed {
        next: start + 1,
        at: 0,
    };
    for _k in 0..many {
        passed = prefix_passes(told, passed.next, list, passed.at)?;
    }
    if passed.at < list.len() {
        return None;
    }
    Some(passed.next)
}
