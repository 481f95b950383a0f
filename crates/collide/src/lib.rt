// Whether two fetch specs can ever collide, so that one destination is written to under both, and on which. Document 02, W1.
#![tactic(auto)]

ghost use Rattle.std.specs.Prelude.{[], ◌∷◌, suc, ◌<◌, ◌≤◌, length, take, drop};
ghost use Rattle.std.proofs.Math.Option.{some};
ghost use Rattle.meaning.specs.Limits.{spec_bytes, spec_list_bytes};
ghost use Rattle.meaning.specs.Spec.{accepted};
ghost use Rattle.meaning.specs.Match.{literal, pattern};
ghost use Rattle.meaning.specs.Buffers.{MeetsMaybe};
ghost use Rattle.meaning.specs.Collide.{shared_by, collision, collide_bytes};
ghost use Rattle.parse.specs.Places.{SidesWithin, spec_meant};
ghost use Rattle.refspec.specs.Instructions.{side_text};
ghost use Rattle.collide.specs.Targets.{form_written, TargetIn, Writes, report_after};

pub mod answer;
mod literal;
mod pattern;

use answer::{Collision, none, refused};
use literal::{literal_in, two_literals};
use matcher::needle::target_of;
use matcher::types::Target;
use parse::parse;
use parse::types::RefSpec;
use pattern::starts_and_ends;
use refspec::side::text_of;

// Where a spec writes, as a target of its destination's text: nowhere if it is negative or has no destination.
fn target_in(spec: &[u8], r: RefSpec) -> Target
    requires { SidesWithin (length spec.now) r × (length spec.now ≤ spec_bytes) }
    ensures { Writes (side_text spec.now r.dst) (spec_meant spec.now r) result }
{
    if r.mode.is_negative() {
        Target::Absent
    } else {
        target_of(spec, r.dst)
    }
}

// Two patterns whose stars stand at their places.
fn two_patterns(t: &[u8], i: usize, u: &[u8], j: usize, out: &mut [u8]) -> Collision
    requires { (i < length t.now) × (j < length u.now) × (length t.now ≤ spec_list_bytes) × (length u.now ≤ spec_list_bytes) }
    ensures { MeetsMaybe (accepted (shared_by (some (pattern (take i t.now) (drop (suc i) t.now))) (some (pattern (take j u.now) (drop (suc j) u.now))) ∷ [])) out.old out.new result.refusal result.which result.collides result.length }
{
    starts_and_ends(&t[..i], &t[i + 1..], &u[..j], &u[j + 1..], out)
}

// What two texts are written as.
fn two_targets(t: &[u8], one: Target, u: &[u8], other: Target, out: &mut [u8]) -> Collision
    requires { TargetIn t.now one × TargetIn u.now other }
    ensures { MeetsMaybe (accepted (shared_by (form_written t.now one) (form_written u.now other) ∷ [])) out.old out.new result.refusal result.which result.collides result.length }
{
    match (one, other) {
        (Target::Absent, _) | (_, Target::Absent) => none(),
        (Target::Pattern(i), Target::Pattern(j)) => two_patterns(t, i, u, j, out),
        (Target::Pattern(star), Target::Literal(lead)) => literal_in(t, star, u, lead, out),
        (Target::Literal(lead), Target::Pattern(star)) => literal_in(u, star, t, lead, out),
        (Target::Literal(lead), Target::Literal(led)) => two_literals(t, lead, u, led, out),
    }
}

// Two specs that were read.
fn two_specs(first: &[u8], s: RefSpec, second: &[u8], r: RefSpec, out: &mut [u8]) -> Collision
    requires { SidesWithin (length first.now) s × (length first.now ≤ spec_bytes) × SidesWithin (length second.now) r × (length second.now ≤ spec_bytes) }
    ensures { MeetsMaybe (accepted (collision (spec_meant first.now s) (spec_meant second.now r) ∷ [])) out.old out.new result.refusal result.which result.collides result.length }
{
    let one = target_in(first, s);
    let other = target_in(second, r);
    let t = text_of(first, b"HEAD", s.dst);
    let u = text_of(second, b"HEAD", r.dst);
    two_targets(t, one, u, other, out)
}

// The first spec was read; the second one's questions follow.
fn with_second(first: &[u8], s: RefSpec, second: &[u8], out: &mut [u8]) -> Collision
    requires { SidesWithin (length first.now) s × (length first.now ≤ spec_bytes) }
    ensures { MeetsMaybe (report_after (spec_meant first.now s) second.now) out.old out.new result.refusal result.which result.collides result.length }
{
    match parse(0, second) {
        Ok(r) => two_specs(first, s, second, r, out),
        Err(q) => refused(q, 2),
    }
}

// The report on two fetch specs: the first one's questions, then the second one's, then whether they can ever collide.
pub fn collide(first: &[u8], second: &[u8], out: &mut [u8]) -> Collision
    ensures { MeetsMaybe (collide_bytes first.now second.now) out.old out.new result.refusal result.which result.collides result.length }
{
    match parse(0, first) {
        Ok(s) => with_second(first, s, second, out),
        Err(q) => refused(q, 1),
    }
}
