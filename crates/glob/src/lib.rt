// What a name has in place of a pattern's star. Port of `matches` of a glob in the crate's match_group/util.rs.
#![tactic(auto)]

ghost use Rattle.std.specs.Prelude.{◌≡◌, suc, ◌<◌, ◌≤◌, length, take, drop};
ghost use Rattle.meaning.specs.Bytes.{before};
ghost use Rattle.meaning.specs.Match.{capture};
ghost use Rattle.glob.specs.Captures.{capture_meant, ended_at, captured_at, CaptureWithin};

pub mod pieces;

// What a name has between a start and an end: `len` of its bytes that begin at `from`.
#[derive(Clone, Copy, Debug, PartialEq, Eq)]
pub struct Captured {
    pub from: usize,
    pub len: usize,
}

// What a name has before its end b, from a place on.
fn before_end(name: &[u8], from: usize, b: &[u8]) -> Option<Captured>
    requires { from ≤ length name.now }
    ensures { (result ≡ ended_at name.now from b.now) × (capture_meant name.now result ≡ before b.now (drop from name.now)) × CaptureWithin (length name.now) result }
{
    if !compare::ends(b, &name[from..]) {
        return None;
    }
    let rest = name.len() - from;
    Some(Captured {
        from,
        len: rest - b.len(),
    })
}

// What a name has between the start a and the end b, which do not overlap.
pub fn capture(a: &[u8], b: &[u8], name: &[u8]) -> Option<Captured>
    ensures { (result ≡ captured_at a.now b.now name.now) × (capture_meant name.now result ≡ capture a.now b.now name.now) × CaptureWithin (length name.now) result }
{
    if !compare::begins(a, name) {
        return None;
    }
    before_end(name, a.len(), b)
}

// What a name has in place of the star of a text t, which stands at a place.
pub fn glob(t: &[u8], star: usize, name: &[u8]) -> Option<Captured>
    requires { star < length t.now }
    ensures { (result ≡ captured_at (take star t.now) (drop (suc star) t.now) name.now) × (capture_meant name.now result ≡ capture (take star t.now) (drop (suc star) t.now) name.now) × CaptureWithin (length name.now) result }
{
    capture(&t[..star], &t[star + 1..], name)
}
