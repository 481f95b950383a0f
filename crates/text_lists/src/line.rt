// The lines of a text as a person writes it: where each ends, and what it holds.
ghost use Rattle.std.specs.Prelude.{◌≡◌, ◌+◌, ◌^◌, ◌<◌, length};
ghost use Rattle.std.specs.Iterator.{YieldsFirstBy, item_count};
ghost use Rattle.meaning.specs.Bytes.{every, numbered_from};
ghost use Rattle.text_lists.specs.Line.{lines_of, lines_left, LineAt, blank_byte, TellsLine};

// What a line holds: a spec or a name, which is the rest of the line from a place on, or nothing; a byte order mark stands before anything
// else.
// As it is: (d) `Nothing` is one of several cases; an Option around the others would add a layer to each match, as in `Some(Line::Fetch(start))`.
#[derive(Clone, Copy)]
pub enum Line {
    Nothing,
    Fetch(usize),
    Push(usize),
    Name(usize),
    Shown(usize),
    Marked,
    Unknown,
}

// Where the text of a line ends, and where the next line begins.
#[derive(Clone, Copy)]
pub struct Extent {
    pub end: usize,
    pub next: usize,
}

// The line that begins at a place. A carriage return right before its line feed is part of its end.
pub fn next_line(s: &[u8], at: usize) -> Extent
    requires { at < length s.now }
    ensures { LineAt s.now at result.end result.next }
{
    let Some(feed) = text::find_from(b'\n', s, at) else {
        let end = s.len();
        return Extent { end, next: end + 1 };
    };
    let next = feed + 1;
    if feed == at {
        return Extent { end: feed, next };
    }
    if s[feed - 1] != b'\r' {
        return Extent { end: feed, next };
    }
    Extent {
        end: feed - 1,
        next,
    }
}

// The lines of a text that are left, each with its number, counting from 1.
#[derive(Clone, Copy)]
pub struct Lines<'a> {
    rest: &'a [u8],
    passed: usize,
    ghost fits: { passed + length rest.now < 2 ^ 64 },
}

impl<'a> Lines<'a> {
    // All lines of a text.
    pub fn of(text: &'a [u8]) -> Lines<'a>
        ensures { lines_left result.passed result.rest.now ≡ numbered_from 1 (lines_of text.now) }
    {
        Lines {
            rest: text,
            passed: 0,
        }
    }
}

impl<'a> Iterator for Lines<'a> {
    type Item = (usize, &'a [u8]);

    ghost next_gives = { YieldsFirstBy (λ l. (l.0, l.1.now)) (λ s. lines_left s.passed s.rest.now) };

    ghost remaining = { item_count (λ s. lines_left s.passed s.rest.now) };

    fn next(&mut self) -> Option<(usize, &'a [u8])> {
        if self.rest.is_empty() {
            return None;
        }
        let Extent { end, next } = next_line(self.rest, 0);
        let number = self.passed + 1;
        let line = &self.rest[..end];
        let left = self.rest.len().min(next);
        *self = Lines {
            rest: &self.rest[left..],
            passed: number,
        };
        Some((number, line))
    }
}

// A space or a tab.
#[tactic(auto, using(std::proofs::lemmas::Bool::Decides::nat_tests))]
fn is_blank(b: u8) -> bool
    ensures { result ≡ blank_byte b }
{
    matches!(b, b' ' | b'\t')
}

// The line has nothing but spaces and tabs.
fn all_blank(line: &[u8]) -> bool
    ensures { result ≡ every blank_byte line.now }
{
    line.iter().all(|b| is_blank(*b))
}

// What a line holds.
pub fn classify(line: &[u8]) -> Line
    ensures { TellsLine line.now result }
{
    if all_blank(line) || compare::begins(b"#", line) {
        return Line::Nothing;
    }
    if compare::begins(b"fetch ", line) {
        return Line::Fetch(6);
    }
    if compare::begins(b"push ", line) {
        return Line::Push(5);
    }
    if compare::begins(b"name ", line) {
        return Line::Name(5);
    }
    if compare::begins(b"shown ", line) {
        return Line::Shown(6);
    }
    if compare::begins(b"\xEF\xBB\xBF", line) {
        return Line::Marked;
    }
    Line::Unknown
}
