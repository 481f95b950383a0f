// Reading an item list, and noting in the same pass where its names stand.
ghost use Rattle.std.specs.Prelude.{◌≡◌, ◌+◌, ◌*◌, ◌≤◌, length, set};
ghost use Rattle.meaning.specs.Limits.{item_list_bytes};
ghost use Rattle.list.specs.Checked.{numbers_of};
ghost use Rattle.list.specs.Places.{places_room, PlacesRead};

use super::cursor::Cursor;
use super::items::item_at;
use super::refused::{Refused, numbered};
use super::stretch::Stretch;
use limits::{ITEM_COUNT, ITEM_LIST_BYTES};
use refusal::Refusal;

// Room for the places of as many names as a list may have, two numbers for each.
pub const PLACES_ROOM: usize = 2 * ITEM_COUNT;

// Notes where name number n stands: where it begins, and how many bytes it has.
fn put_place(places: &mut [u16], n: usize, name: Stretch)
    requires { (2 * n + 2 ≤ length places.old) × (name.at ≤ item_list_bytes) × (name.len ≤ item_list_bytes) }
    ensures { places.new ≡ set (set places.old (2 * n) name.at) (2 * n + 1) name.len }
{
    places[2 * n] = name.at as u16;
    places[2 * n + 1] = name.len as u16;
}

// The records of an item list, one after the other, each noted.
fn each_place(list: &[u8], places: &mut [u16]) -> Result<usize, Refused>
    requires { (length list.now ≤ item_list_bytes) × (places_room ≤ length places.old) }
    ensures { PlacesRead list.now places.old places.new (numbers_of result) }
{
    let mut c = Cursor::new();
    let mut count: usize = 0;
    // As it is: (d) a walk as in `items.rt`, for the reason given there.
    while let Some(r) = numbered(item_at(list, c, count), count)? {
        put_place(places, count, r.value);
        c = r.next;
        count += 1;
    }
    Ok(count)
}

// Reads an item list, and notes where each name begins and how many bytes it has, two numbers for each. Where a record is refused, the names
// before it are noted.
// As it is: (d) `row_list::read_rows` has this form, with a limit and a walk of its own.
pub fn read_places(list: &[u8], places: &mut [u16]) -> Result<usize, Refused>
    requires { places_room ≤ length places.old }
    ensures { PlacesRead list.now places.old places.new (numbers_of result) }
{
    if ITEM_LIST_BYTES < list.len() {
        return Err(Refused::of_list(Refusal::ListTooLong));
    }
    each_place(list, places)
}
