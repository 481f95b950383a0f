// Reading an item list: the questions in order, each record in turn.
ghost use Rattle.std.specs.Prelude.{◌≡◌, ◌≤◌, length};
ghost use Rattle.meaning.specs.Limits.{item_list_bytes};
ghost use Rattle.meaning.specs.Lists.{item_record, read_items};
ghost use Rattle.promises.specs.Facts.{records};
ghost use Rattle.list.specs.Checked.{checked, numbers_of, item_at};

use super::cursor::{Cursor, Step};
use super::refused::{Refused, numbered};
use super::stretch::Stretch;
use limits::{ITEM_COUNT, ITEM_LIST_BYTES, NAME_BYTES};
use refusal::Refusal;

// The item that stands at a cursor with `count` items behind it: questions 14, 13 and 15.
pub(crate) fn item_at(list: &[u8], c: Cursor, count: usize) -> Step<Stretch>
    ensures { result ≡ item_at count list.now c.at }
{
    if list.len() <= c.at {
        return Ok(None);
    }
    if ITEM_COUNT <= count {
        return Err(Refusal::TooManyRecords);
    }
    let Some(r) = c.next(list)? else {
        return Ok(None);
    };
    if NAME_BYTES < r.value.len {
        return Err(Refusal::NameTooLong);
    }
    Ok(Some(r))
}

// The records of an item list, one after the other.
fn each_item(list: &[u8]) -> Result<usize, Refused>
    requires { length list.now ≤ item_list_bytes }
    ensures { numbers_of result ≡ checked (records item_record 0 list.now) }
{
    let mut c = Cursor::new();
    let mut count: usize = 0;
    // As it is: (d) a record says where the next begins and `?` ends the walk, so an iterator would hold the cursor and the count and hand out a
    // `Result`; the laws of such a walk stand once, in `list/proofs/Readings.antt`.
    while let Some(r) = numbered(item_at(list, c, count), count)? {
        c = r.next;
        count += 1;
    }
    Ok(count)
}

// Reads an item list: how many items it has, or the refusal.
pub fn read_items(list: &[u8]) -> Result<usize, Refused>
    ensures { numbers_of result ≡ checked (read_items list.now) }
{
    if ITEM_LIST_BYTES < list.len() {
        return Err(Refused::of_list(Refusal::ListTooLong));
    }
    each_item(list)
}
