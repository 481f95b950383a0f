// The prefixes that a spec yields, written as a prefix list. Port of `expand_prefixes` in the crate's spec.rs.
// As it is: (a) an operation is the C interface's number here; it is handed on as it stands to `parse`, which asks question 18 of it.
#![tactic(auto)]

ghost use Rattle.std.specs.Prelude.{◌≡◌, [], ◌∷◌, ◌≤◌, length};
ghost use Rattle.std.proofs.Math.Option.{some};
ghost use Rattle.meaning.specs.Limits.{spec_bytes};
ghost use Rattle.meaning.specs.Spec.{accepted};
ghost use Rattle.meaning.specs.Number.{record_bytes};
ghost use Rattle.meaning.specs.Prefix.{expand_prefixes};
ghost use Rattle.meaning.specs.Buffers.{MeetsOne};
ghost use Rattle.meaning.specs.Entries.{expanded};
ghost use Rattle.buffer.specs.Splice.{splice};
ghost use Rattle.parse.specs.Places.{Within, SidesWithin, spec_meant};
ghost use Rattle.expand.specs.Yields.{yield_without, yield_place, yield_meant, YieldWithin};

use buffer::written::{Written, done, refused, short};
use frames::{candidates_size, put_candidates};
use parse::parse;
use parse::types::{RefSpec, Side};
use refspec::spec::{prefix_of, remote};
use spec_text::{put_side, side_size};

// What a spec yields: nothing, one text, or the six candidates of the name of so many bytes that begins at a place.
// As it is: (d) in an `Option` of the other two cases each match would have two layers.
#[derive(Clone, Copy)]
pub enum Yield {
    Nothing,
    One(Side),
    Six(usize, usize),
}

// What a name without a prefix yields, where it begins at a place.
fn name_yield(t: &[u8], at: usize) -> Yield
    ensures { result ≡ yield_without at t.now }
{
    if compare::begins(b"refs/", t) {
        if text::has_byte(b'/', &t[5..]) {
            Yield::Nothing
        } else {
            Yield::One(Side::Part(at, t.len()))
        }
    } else if hex_digits::object_id(t) {
        Yield::Nothing
    } else {
        Yield::Six(at, t.len())
    }
}

// What a side yields: an absent one nothing, a part its prefix, or what its name yields without one.
pub fn yield_of(spec: &[u8], side: Side) -> Yield
    requires { Within (length spec.now) side }
    ensures { result ≡ yield_place spec.now side }
{
    match side {
        Side::Absent => Yield::Nothing,
        Side::Part(at, n) => {
            let prefix = prefix_of(spec, side);
            if prefix.is_present() {
                Yield::One(prefix)
            } else {
                name_yield(&spec[at..at + n], at)
            }
        }
        Side::Head => Yield::One(Side::Head),
    }
}

impl Yield {
    // How many bytes a yield takes as a prefix list.
    fn size(self, spec: &[u8]) -> usize
        requires { YieldWithin (length spec.now) self × (length spec.now ≤ spec_bytes) }
        ensures { result ≡ length (record_bytes (yield_meant spec.now self)) }
    {
        match self {
            Yield::Nothing => 0,
            Yield::One(side) => {
                let n = side_size(spec, side);
                number::size(n) + n
            }
            Yield::Six(at, n) => candidates_size(&spec[at..at + n]),
        }
    }

    // Writes a yield as a prefix list at the start of the buffer.
    fn put(self, out: &mut [u8], spec: &[u8])
        requires { YieldWithin (length spec.now) self × (length spec.now ≤ spec_bytes) × (length (record_bytes (yield_meant spec.now self)) ≤ length out.old) }
        ensures { out.new ≡ splice out.old 0 (record_bytes (yield_meant spec.now self)) }
    {
        match self {
            Yield::Nothing => {}
            Yield::One(side) => {
                let i = number::put(out, 0, side_size(spec, side));
                put_side(out, i, spec, side);
            }
            Yield::Six(at, n) => {
                put_candidates(out, 0, &spec[at..at + n]);
            }
        }
    }
}

// The prefixes of a spec that was read.
fn expand(op: u64, spec: &[u8], r: RefSpec, out: &mut [u8]) -> Written
    requires { SidesWithin (length spec.now) r × (length spec.now ≤ spec_bytes) }
    ensures { MeetsOne (accepted (some (record_bytes (expand_prefixes op (spec_meant spec.now r))) ∷ [])) out.old out.new result.refusal result.record result.length }
{
    let y = yield_of(spec, remote(op, r));
    let size = y.size(spec);
    if out.len() < size {
        return short(size);
    }
    y.put(out, spec);
    done(size)
}

// The prefixes that a spec yields, as a prefix list, for an operation, 0 fetch or 1 push.
// As it is: (d) `write::to_bstring` has this form, a match of two arms; one function of both would be handed what the first arm does.
pub fn expand_prefixes(op: u64, spec: &[u8], out: &mut [u8]) -> Written
    ensures { MeetsOne (expanded op spec.now) out.old out.new result.refusal result.record result.length }
{
    match parse(op, spec) {
        Ok(r) => expand(op, spec, r, out),
        Err(q) => refused(q.number(), 0),
    }
}
