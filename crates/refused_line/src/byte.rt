// Which byte of a line a refusal is about, if about one.
ghost use Rattle.std.specs.Prelude.{◌≡◌, ◌≤◌, ℕ, length, position, take_while, zip, nat_eq};
ghost use Rattle.meaning.specs.Spec.{mode_of};
ghost use Rattle.parse.specs.Places.{sign_length};
ghost use Rattle.print.specs.Unshown.{unshown};
ghost use Rattle.refused_line.specs.Byte.{counted, byte_after, refused_byte, source_byte, destination_byte, spec_byte, unshown_byte, known, line_byte, SidesAt};

use percent::measure;
use text::last::past_last;
use text_lists::line::{Line, classify};

// Where the sides of a spec stand: the source from `start` to `end`, the destination from `rest` on.
#[derive(Clone, Copy)]
struct Sides {
    start: usize,
    end: usize,
    rest: usize,
}

// A byte that the name rules refuse wherever it stands; a star is read as the letter a.
#[tactic(auto, using(std::proofs::lemmas::Bool::Decides::nat_tests), unfolding(crate::specs::Byte::refused_byte, name::specs::Rules::name_byte, meaning::specs::Names::rule_four_byte, meaning::specs::Names::rule_five_byte))]
fn is_refused(b: u8) -> bool
    ensures { result ≡ refused_byte b }
{
    matches!(b, 0..=32 | b':' | b'?' | b'[' | b'\\' | b'^' | b'~' | 127)
}

// The first such byte of a text.
fn first_refused(s: &[u8]) -> Option<usize>
    ensures { result ≡ position refused_byte s.now }
{
    s.iter().position(|b| is_refused(*b))
}

// The byte after the first k, if there is one.
#[tactic(auto, unfolding(crate::specs::Byte::byte_after))]
fn byte_after(k: usize, t: &[u8]) -> Option<usize>
    ensures { (counted result ≡ byte_after k t.now) × (counted result ≤ length t.now) }
{
    if k < t.len() { Some(k) } else { None }
}

// How many bytes the sign of a spec takes.
fn sign_size(t: &[u8]) -> usize
    ensures { (result ≡ sign_length (mode_of t.now)) × (result ≤ length t.now) }
{
    if t.len() == 0 {
        return 0;
    }
    if t[0] == b'^' {
        return 1;
    }
    if t[0] == b'+' {
        return 1;
    }
    0
}

// Where the sides of a spec stand, by its sign and its last colon.
fn split(t: &[u8]) -> Sides
    ensures { SidesAt t.now result.start result.end result.rest }
{
    let start = sign_size(t);
    let Some(n) = past_last(b':', &t[start..]) else {
        return Sides {
            start,
            end: t.len(),
            rest: t.len(),
        };
    };
    Sides {
        start,
        end: start + n - 1,
        rest: start + n,
    }
}

// The first byte of a spec's source that the name rules refuse.
fn source_byte(t: &[u8]) -> Option<usize>
    ensures { (counted result ≡ source_byte t.now) × (counted result ≤ length t.now) }
{
    let s = split(t);
    let i = first_refused(&t[s.start..s.end])?;
    Some(s.start + i)
}

// The first byte of its destination that they refuse.
fn destination_byte(t: &[u8]) -> Option<usize>
    ensures { (counted result ≡ destination_byte t.now) × (counted result ≤ length t.now) }
{
    let s = split(t);
    let i = first_refused(&t[s.rest..])?;
    Some(s.rest + i)
}

// Of a spec that is refused.
#[tactic(auto, unfolding(crate::specs::Byte::spec_byte))]
fn spec_byte(n: u64, t: &[u8]) -> Option<usize>
    ensures { (counted result ≡ spec_byte n t.now) × (counted result ≤ length t.now) }
{
    match n {
        6 => source_byte(t),
        8 => destination_byte(t),
        _ => None,
    }
}

// Of a name as a listing shows it.
fn unshown_byte(t: &[u8]) -> Option<usize>
    ensures { (counted result ≡ unshown_byte t.now (unshown t.now)) × (counted result ≤ length t.now) }
{
    match measure(t) {
        Ok(_) => None,
        Err(fault) => byte_after(fault.at, t),
    }
}

// How many bytes two texts begin with alike.
fn alike(p: &[u8], t: &[u8]) -> usize
    ensures { result ≡ length (take_while (λ (z : ℕ × ℕ). nat_eq z.0 z.1) (zip p.now t.now)) }
{
    p.iter().zip(t).take_while(|(a, b)| a == b).count()
}

// How many bytes of a line a line of a known kind begins with.
fn known(t: &[u8]) -> usize
    ensures { result ≡ known t.now }
{
    let specs = alike(b"fetch ", t).max(alike(b"push ", t));
    let names = alike(b"name ", t).max(alike(b"shown ", t));
    specs.max(names)
}

// Of a line that is refused for a reason.
pub(crate) fn line_byte(n: u64, line: &[u8]) -> Option<usize>
    ensures { (counted result ≡ line_byte n line.now) × (counted result ≤ length line.now) }
{
    match classify(line) {
        Line::Fetch(start) | Line::Push(start) => Some(start + spec_byte(n, &line[start..])?),
        Line::Shown(start) => Some(start + unshown_byte(&line[start..])?),
        Line::Unknown => byte_after(known(line), line),
        Line::Nothing => None,
        Line::Name(_) => None,
        Line::Marked => None,
    }
}
