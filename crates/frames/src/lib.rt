// The six frames of a partial name, and the candidates that they make. Port of `expand_partial_name` in the crate's spec.rs.
#![tactic(auto)]

ghost use Rattle.std.specs.Prelude.{◌≡◌, ℕ, ◌+◌, ◌<◌, ◌≤◌, MatchOption, length};
ghost use Rattle.meaning.specs.Bytes.{any, same};
ghost use Rattle.meaning.specs.Limits.{spec_list_bytes};
ghost use Rattle.meaning.specs.Number.{text_bytes, record_bytes};
ghost use Rattle.meaning.specs.Prefix.{candidates};
ghost use Rattle.buffer.specs.Splice.{RoomFor, Puts};
ghost use Rattle.frames.specs.Frames.{frame_at, candidate, adds};

// How many frames there are.
pub const FRAMES: usize = 6;

// The most bytes that a frame adds to a name: `refs/remotes/` and `/HEAD`.
pub const LONGEST_FRAME: usize = 18;

// A frame: what leads a name, and what trails it.
#[derive(Clone, Copy)]
struct Frame {
    leading: &'static [u8],
    trailing: &'static [u8],
}

// The frames, by candidate number.
const TABLE: &[Frame; 6] = &[
    Frame {
        leading: b"",
        trailing: b"",
    },
    Frame {
        leading: b"refs/",
        trailing: b"",
    },
    Frame {
        leading: b"refs/tags/",
        trailing: b"",
    },
    Frame {
        leading: b"refs/heads/",
        trailing: b"",
    },
    Frame {
        leading: b"refs/remotes/",
        trailing: b"",
    },
    Frame {
        leading: b"refs/remotes/",
        trailing: b"/HEAD",
    },
];

// Frame number k.
fn frame_of(k: usize) -> Frame
    requires { k < 6 }
    ensures { (result.leading.now ≡ (frame_at k).leading) × (result.trailing.now ≡ (frame_at k).trailing) }
{
    TABLE[k]
}

// How many bytes candidate number k of a name has.
fn candidate_size(k: usize, name: &[u8]) -> usize
    requires { (k < 6) × (length name.now ≤ spec_list_bytes) }
    ensures { result ≡ length (candidate k name.now) }
{
    let f = frame_of(k);
    f.leading.len() + name.len() + f.trailing.len()
}

// Candidate number k of a name, written from `at` on; the place after it.
pub fn put_candidate(out: &mut [u8], at: usize, k: usize, name: &[u8]) -> usize
    requires { (k < 6) × RoomFor out.old at (candidate k name.now) }
    ensures { Puts out.old at (candidate k name.now) out.new result }
{
    let f = frame_of(k);
    let i = buffer::put(out, at, f.leading);
    let j = buffer::put(out, i, name);
    buffer::put(out, j, f.trailing)
}

// How many bytes candidate number k has as a record of a prefix list.
pub fn record_size(k: usize, name: &[u8]) -> usize
    requires { (k < 6) × (length name.now ≤ spec_list_bytes) }
    ensures { result ≡ length (text_bytes (candidate k name.now)) }
{
    let n = candidate_size(k, name);
    number::size(n) + n
}

// Candidate number k as a record of a prefix list, written from `at` on; the place after it.
pub fn put_record(out: &mut [u8], at: usize, k: usize, name: &[u8]) -> usize
    requires { (k < 6) × (length name.now ≤ spec_list_bytes) × RoomFor out.old at (text_bytes (candidate k name.now)) }
    ensures { Puts out.old at (text_bytes (candidate k name.now)) out.new result }
{
    let i = number::put(out, at, candidate_size(k, name));
    put_candidate(out, i, k, name)
}

// How many bytes the candidates of a name take as a prefix list.
pub fn candidates_size(name: &[u8]) -> usize
    requires { length name.now ≤ spec_list_bytes }
    ensures { result ≡ length (record_bytes (candidates name.now)) }
{
    let mut size = 0;
    for k in 0..FRAMES {
        size += record_size(k, name);
    }
    size
}

// The candidates of a name as a prefix list, written from `at` on; the place after it.
pub fn put_candidates(out: &mut [u8], at: usize, name: &[u8]) -> usize
    requires { (length name.now ≤ spec_list_bytes) × RoomFor out.old at (record_bytes (candidates name.now)) }
    ensures { Puts out.old at (record_bytes (candidates name.now)) out.new result }
{
    let mut i = at;
    for k in 0..FRAMES {
        i = put_record(out, i, k, name);
    }
    i
}

// A name of its size is a partial name t in the frame number k. Most differ in the partial name.
fn is_framed(k: usize, t: &[u8], name: &[u8]) -> bool
    requires { (k < 6) × (length name.now ≡ length t.now + adds k) }
    ensures { result ≡ same name.now (candidate k t.now) }
{
    let f = frame_of(k);
    let n = f.leading.len();
    if !compare::begins(t, &name[n..]) {
        return false;
    }
    compare::begins(f.leading, name) && compare::same(&name[n + t.len()..], f.trailing)
}

// A name is candidate number k of a partial name t. Most names differ in size.
pub fn is_candidate(k: usize, t: &[u8], name: &[u8]) -> bool
    requires { k < 6 }
    ensures { result ≡ same name.now (candidate k t.now) }
{
    let f = frame_of(k);
    let Some(n) = name.len().checked_sub(f.leading.len() + f.trailing.len()) else {
        return false;
    };
    n == t.len() && is_framed(k, t, name)
}

// The number of the one frame that adds d bytes, if there is one.
fn frame_adding(d: usize) -> Option<usize>
    ensures { MatchOption result ((k : ℕ) → k < 6 → d ≡ adds k → ⊥) (λ k. (k < 6) × (d ≡ adds k)) }
{
    match d {
        0 => Some(0),
        5 => Some(1),
        10 => Some(2),
        11 => Some(3),
        13 => Some(4),
        18 => Some(5),
        _ => None,
    }
}

// A name is a candidate of a partial name t. Its size tells the one that it may be.
pub fn any_candidate(t: &[u8], name: &[u8]) -> bool
    ensures { result ≡ any (same name.now) (candidates t.now) }
{
    let Some(d) = name.len().checked_sub(t.len()) else {
        return false;
    };
    match frame_adding(d) {
        Some(k) => is_framed(k, t, name),
        None => false,
    }
}
