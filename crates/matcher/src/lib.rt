// The matcher of a spec: what its source looks for, and what its destination is. Port of the crate's match_group/util.rs.
#![tactic(auto)]

ghost use Rattle.std.specs.Prelude.{◌≡◌, length};
ghost use Rattle.parse.specs.Places.{SidesWithin, spec_meant};
ghost use Rattle.matcher.specs.Matching.{Matches};

pub mod needle;
pub mod types;

use needle::{needle_of, target_of};
use parse::types::RefSpec;
use types::Matcher;

// The matcher of a spec that was read.
pub fn matcher(specs: &[u8], r: RefSpec) -> Matcher
    requires { SidesWithin (length specs.now) r }
    ensures { (result.src ≡ r.src) × (result.dst ≡ r.dst) × Matches specs.now (spec_meant specs.now r) result }
{
    Matcher {
        src: r.src,
        lhs: needle_of(specs, r.mode.is_negative(), r.src),
        dst: r.dst,
        rhs: target_of(specs, r.dst),
    }
}
