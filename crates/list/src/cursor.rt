// A cursor over a list of records, each a length and then its bytes.
ghost use Rattle.std.specs.Prelude.{◌≡◌, ◌≤◌, length, drop};
ghost use Rattle.meaning.specs.Number.{read_bytes};
ghost use Rattle.list.specs.Cursor.{placed_step, step_at};

use super::stretch::Stretch;
use refusal::Refusal;

// A place in a list at which a record begins.
#[derive(Clone, Copy)]
pub struct Cursor {
    pub at: usize,
}

// A record that was read, with the cursor moved on.
#[derive(Clone, Copy)]
pub struct Record<T> {
    pub value: T,
    pub next: Cursor,
}

// What stands at a cursor: a record, none at the list's end, or a refusal.
pub type Step<T> = Result<Option<Record<T>>, Refusal>;

// The record of `len` bytes that begin at `start`.
fn record_at(list: &[u8], start: usize, len: usize) -> Step<Stretch>
    requires { start ≤ length list.now }
    ensures { result ≡ placed_step list.now (read_bytes len (drop start list.now)) }
{
    if list.len() - start < len {
        return Err(Refusal::Malformed);
    }
    Ok(Some(Record {
        value: Stretch { at: start, len },
        next: Cursor { at: start + len },
    }))
}

impl Cursor {
    // The cursor at a list's first record.
    pub fn new() -> Self
        ensures { result.at ≡ 0 }
    {
        Cursor { at: 0 }
    }

    // What stands here in a list; at or past the list's end, none.
    pub fn next(self, list: &[u8]) -> Step<Stretch>
        ensures { result ≡ step_at list.now self.at }
    {
        if list.len() <= self.at {
            return Ok(None);
        }
        let Some(n) = number::read(list, self.at) else {
            return Err(Refusal::Malformed);
        };
        record_at(list, n.next, n.value)
    }
}
