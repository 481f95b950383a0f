// A recorded answer to one spec, held to ours, field by field. specs/Record.antt has the record's form.
#![tactic(auto)]

ghost use Rattle.std.specs.Prelude.{◌≡◌, true, ◌↔◌, ◌≤◌, length};
ghost use Rattle.recorded.specs.Record.{sized_room, IsRecord};

mod answer;
pub mod field;
mod list;

use answer::answer_agrees;
use field::text_end;

// The record tells what we answer to the spec that it names. `scratch` has room for our texts; what it holds afterwards is left open.
pub fn agrees(told: &[u8], scratch: &mut [u8]) -> bool
    requires { sized_room ≤ length scratch.old }
    ensures { (result ≡ true) ↔ IsRecord told.now }
{
    if told.is_empty() {
        return false;
    }
    let Some(end) = text_end(told, 1) else {
        return false;
    };
    answer_agrees(told, end, u64::from(told[0]), &told[3..end], scratch)
}
