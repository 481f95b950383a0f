// Replays recorded answers of gix-refspec, or what it showed of two specs, one after the other, and says how many of them are ours.
#![tactic(auto)]

ghost use Rattle.std.specs.Prelude.{◌≡◌, ◌+◌, ◌≤◌, ◌<◌, length};
ghost use Rattle.recorded.specs.Record.{sized_room};

use std::io::{Read, Write};
use stdio::{read_full, tell};

// Room for a record, and for what is made of it.
const ROOM: usize = 65536;

// How many differing answers are named.
const NAMED: u64 = 10;

// How many records were read, and how many of them differ.
#[derive(Clone, Copy)]
pub struct Tally {
    read: u64,
    differ: u64,
    ghost fits: { differ ≤ read },
}

impl Tally {
    // One answer more that is ours.
    fn agreeing(self) -> Tally
        requires { self.read < 18446744073709551615 }
        ensures { (result.read ≡ self.read + 1) × (result.differ ≡ self.differ) }
    {
        Tally {
            read: self.read + 1,
            differ: self.differ,
        }
    }

    // One answer more that differs.
    fn differing(self) -> Tally
        requires { self.read < 18446744073709551615 }
        ensures { (result.read ≡ self.read + 1) × (result.differ ≡ self.differ + 1) }
    {
        Tally {
            read: self.read + 1,
            differ: self.differ + 1,
        }
    }
}

// Prints a number, and words after it: two writes, of which the second is tried where the first fails.
fn say_count<W: Write>(to: &mut W, n: u64, words: &str) {
    let _ = write!(to, "{n}");
    tell(to, words.as_bytes());
}

// What recorded answers are about.
pub trait Recorded {
    // The word for one of them, with a space after it.
    fn one(&self) -> &'static str;

    // The recorded answer is ours.
    fn agrees(&self, record: &[u8], scratch: &mut [u8]) -> bool
        requires { sized_room ≤ length scratch.old };

    // Prints how many there are, and how many of them differ or, of groups and pairs, agree.
    fn say<W: Write>(&self, to: &mut W, t: Tally);
}

// Answers to specs.
#[derive(Clone, Copy)]
pub struct Specs;

// Answers to groups.
#[derive(Clone, Copy)]
pub struct Groups;

// Reports on two specs.
#[derive(Clone, Copy)]
pub struct Pairs;

impl Recorded for Specs {
    fn one(&self) -> &'static str {
        "answer "
    }

    fn agrees(&self, record: &[u8], scratch: &mut [u8]) -> bool {
        recorded::agrees(record, scratch)
    }

    fn say<W: Write>(&self, to: &mut W, t: Tally) {
        say_count(to, t.read, " answers, ");
        say_count(to, t.differ, " differ\n");
    }
}

impl Recorded for Groups {
    fn one(&self) -> &'static str {
        "group "
    }

    fn agrees(&self, record: &[u8], scratch: &mut [u8]) -> bool {
        recorded_groups::group_agrees(record, scratch)
    }

    fn say<W: Write>(&self, to: &mut W, t: Tally) {
        say_count(to, t.read, " groups, ");
        say_count(to, t.read - t.differ, " agree\n");
    }
}

impl Recorded for Pairs {
    fn one(&self) -> &'static str {
        "pair "
    }

    fn agrees(&self, record: &[u8], scratch: &mut [u8]) -> bool {
        recorded_pairs::pair_agrees(record, scratch)
    }

    fn say<W: Write>(&self, to: &mut W, t: Tally) {
        say_count(to, t.read, " pairs, ");
        say_count(to, t.read - t.differ, " agree\n");
    }
}

// The list ends within a record, or has one that is too long.
#[derive(Clone, Copy)]
struct CutShort;

// The record is ours, by what is made of it in room of its own. A function that reads would clear that room twice.
fn agrees<K: Recorded>(kind: &K, record: &[u8]) -> bool {
    let mut scratch = [0u8; ROOM];
    kind.agrees(record, &mut scratch)
}

// Reads a record that fills the buffer, and says whether it is ours.
fn compare_in<R: Read, K: Recorded>(
    from: &mut R,
    kind: &K,
    buffer: &mut [u8],
) -> Result<bool, CutShort> {
    if read_full(from, buffer).0 < buffer.len() {
        return Err(CutShort);
    }
    Ok(agrees(kind, buffer))
}

// Reads a record of n bytes, and says whether it is ours.
fn compare<R: Read, K: Recorded>(from: &mut R, kind: &K, n: usize) -> Result<bool, CutShort> {
    let mut buffer = [0u8; ROOM];
    let record = buffer.get_mut(..n).ok_or(CutShort)?;
    compare_in(from, kind, record)
}

// Reads the next record, after its length in four bytes, the lowest first, and says whether it is ours; None at the end of the list.
fn next<R: Read, K: Recorded>(from: &mut R, kind: &K) -> Result<Option<bool>, CutShort> {
    let mut four = [0u8; 4];
    match read_full(from, &mut four).0 {
        0 => Ok(None),
        4 => compare(from, kind, u32::from_le_bytes(four) as usize).map(Some),
        _ => Err(CutShort),
    }
}

// Names the next answer, which differs, unless enough have been named.
fn name<W: Write, K: Recorded>(to: &mut W, kind: &K, t: Tally, words: &str) {
    if t.differ < NAMED {
        tell(to, kind.one().as_bytes());
        say_count(to, t.read, words);
    }
}

// The tally of the whole list. The count of turns only makes this end: no list uses it up.
fn replayed<R: Read, W: Write, K: Recorded>(from: &mut R, to: &mut W, kind: &K) -> Tally {
    let mut t = Tally { read: 0, differ: 0 };
    for _turn in 0..u64::MAX {
        match next(from, kind) {
            Ok(None) => return t,
            Ok(Some(true)) => t = t.agreeing(),
            Ok(Some(false)) => {
                name(to, kind, t, " differs\n");
                t = t.differing();
            },
            Err(CutShort) => {
                name(to, kind, t, " is cut short\n");
                return t.differing();
            },
        }
    }
    t
}

// Replays the answers, and prints how many there are and how many of them differ or, of groups and pairs, agree.
pub fn replay<R: Read, W: Write, K: Recorded>(from: &mut R, to: &mut W, kind: &K) {
    let t = replayed(from, to, kind);
    kind.say(to, t);
}
