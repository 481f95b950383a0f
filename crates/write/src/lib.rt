// The canonical text of a spec. Port of the crate's write.rs.
// As it is: (a) an operation is the C interface's number here; it is handed on as it stands to `parse`, which asks question 18 of it.
#![tactic(auto)]

ghost use Rattle.std.specs.Prelude.{◌≡◌, [], ◌∷◌, ◌≤◌, length};
ghost use Rattle.std.proofs.Math.Option.{some};
ghost use Rattle.buffer.specs.Splice.{splice};
ghost use Rattle.meaning.specs.Limits.{spec_bytes};
ghost use Rattle.meaning.specs.Spec.{accepted};
ghost use Rattle.meaning.specs.Instruction.{canonical_text};
ghost use Rattle.meaning.specs.Buffers.{MeetsOne};
ghost use Rattle.meaning.specs.Entries.{to_bstring};
ghost use Rattle.parse.specs.Places.{SidesWithin, spec_meant};
ghost use Rattle.write.specs.Canonical.{two_pieces, sign_text, pieces_of, PiecesWithin, pieces_text};

use buffer::written::{Written, done, refused, short};
use parse::parse;
use parse::types::{RefSpec, Side};
use refspec::instruction::Instruction;
use refspec::spec::instruction_of;
use spec_text::{put_side, side_size};

// The pieces of a canonical text: a sign, if there is one, a source, and a destination after a colon, if there is one.
#[derive(Clone, Copy)]
struct Pieces {
    sign: Option<u8>,
    src: Side,
    dst: Option<Side>,
}

// Writes a sign, if there is one, at the start of the buffer, and answers the place after it.
fn put_sign(out: &mut [u8], sign: Option<u8>) -> usize
    requires { length (sign_text sign) ≤ length out.old }
    ensures { (out.new ≡ splice out.old 0 (sign_text sign)) × (result ≡ length (sign_text sign)) }
{
    match sign {
        Some(b) => buffer::put_byte(out, 0, b),
        None => 0,
    }
}

impl Pieces {
    // A source and a destination, after `+` where forced.
    fn pair(force: bool, src: Side, dst: Side) -> Pieces
        ensures { result ≡ two_pieces force src dst }
    {
        Pieces {
            sign: force.then_some(b'+'),
            src,
            dst: Some(dst),
        }
    }

    // The pieces of an instruction's text; fetch-only and delete lose the `+`.
    fn of(i: Instruction) -> Pieces
        ensures { result ≡ pieces_of i }
    {
        match i {
            Instruction::FetchOnly { src } => Pieces {
                sign: None,
                src,
                dst: None,
            },
            Instruction::FetchExclude { src } | Instruction::PushExclude { src } => Pieces {
                sign: Some(b'^'),
                src,
                dst: None,
            },
            Instruction::FetchAndUpdate {
                src,
                dst,
                allow_non_fast_forward,
            }
            | Instruction::PushMatching {
                src,
                dst,
                allow_non_fast_forward,
            } => Pieces::pair(allow_non_fast_forward, src, dst),
            Instruction::PushAllMatchingBranches {
                allow_non_fast_forward,
            } => Pieces::pair(allow_non_fast_forward, Side::Absent, Side::Absent),
            Instruction::PushDelete { ref_or_pattern } => {
                Pieces::pair(false, Side::Absent, ref_or_pattern)
            }
        }
    }

    // How many bytes the text has.
    fn size(self, spec: &[u8]) -> usize
        requires { PiecesWithin (length spec.now) self × (length spec.now ≤ spec_bytes) }
        ensures { result ≡ length (pieces_text spec.now self) }
    {
        let sign = usize::from(self.sign.is_some());
        let dst = match self.dst {
            Some(side) => 1 + side_size(spec, side),
            None => 0,
        };
        sign + side_size(spec, self.src) + dst
    }

    // Writes the text at the start of the buffer.
    fn put(self, out: &mut [u8], spec: &[u8])
        requires { PiecesWithin (length spec.now) self × (length (pieces_text spec.now self) ≤ length out.old) }
        ensures { out.new ≡ splice out.old 0 (pieces_text spec.now self) }
    {
        let i = put_sign(out, self.sign);
        let j = put_side(out, i, spec, self.src);
        if let Some(side) = self.dst {
            let k = buffer::put_byte(out, j, b':');
            put_side(out, k, spec, side);
        }
    }
}

// The canonical text of a spec that was read.
fn write_to(op: u64, spec: &[u8], r: RefSpec, out: &mut [u8]) -> Written
    requires { SidesWithin (length spec.now) r × (length spec.now ≤ spec_bytes) }
    ensures { MeetsOne (accepted (some (canonical_text op (spec_meant spec.now r)) ∷ [])) out.old out.new result.refusal result.record result.length }
{
    let p = Pieces::of(instruction_of(op, r));
    let size = p.size(spec);
    if out.len() < size {
        return short(size);
    }
    p.put(out, spec);
    done(size)
}

// The canonical text of a spec, for an operation, 0 fetch or 1 push.
// As it is: (d) as `expand::expand_prefixes`.
pub fn to_bstring(op: u64, spec: &[u8], out: &mut [u8]) -> Written
    ensures { MeetsOne (to_bstring op spec.now) out.old out.new result.refusal result.record result.length }
{
    match parse(op, spec) {
        Ok(r) => write_to(op, spec, r, out),
        Err(q) => refused(q.number(), 0),
    }
}
