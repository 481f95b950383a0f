// Reading one spec: its sign, its sides as places, and document 01's questions in their order. Port of the crate's parse.rs.
#![tactic(auto)]

ghost use Rattle.std.specs.Prelude.{◌≡◌};
ghost use Rattle.meaning.specs.Spec.{read_spec};
ghost use Rattle.parse.specs.Places.{parsed, parsed_meant};

mod questions;
mod split;
pub mod types;

use questions::{entry, sides_refusal};
use refusal::Refusal;
use split::split;
use types::RefSpec;

// Reads one spec for an operation, 0 fetch or 1 push: its places, or the first question that refuses it.
// As it is: (a) the operation comes as the C interface's number, of which question 18 asks; from there on it is an `Operation`.
pub fn parse(op: u64, spec: &[u8]) -> Result<RefSpec, Refusal>
    ensures { (result ≡ parsed op spec.now) × (parsed_meant spec.now result ≡ read_spec op spec.now) }
{
    let op = entry(op, spec)?;
    let s = split(op, spec);
    sides_refusal(op, s.colon, spec, s.spec)?;
    Ok(s.spec)
}
