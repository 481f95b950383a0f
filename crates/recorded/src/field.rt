// One field of a record, held to what it should be: where the next one begins, or none where it differs.
ghost use Rattle.std.specs.Prelude.{◌≡◌, ◌≤◌, length};
ghost use Rattle.recorded.specs.Record.{sized};
ghost use Rattle.recorded.specs.Field.{field_at, LengthFound, TextFound, front_at};

// These bytes.
pub(crate) fn bytes_field(told: &[u8], at: usize, want: &[u8]) -> Option<usize>
    requires { at ≤ length told.now }
    ensures { result ≡ field_at told.now at want.now }
{
    if compare::begins(want, &told[at..]) {
        return Some(at + want.len());
    }
    None
}

// The length that the two bytes at `at` tell; none where the record ends first.
fn length_at(told: &[u8], at: usize) -> Option<usize>
    requires { at ≤ length told.now }
    ensures { LengthFound told.now at result }
{
    if told.len() - at < 2 {
        return None;
    }
    Some(usize::from(u16::from_le_bytes([told[at], told[at + 1]])))
}

// This text, its length before it.
pub fn text_field(told: &[u8], at: usize, want: &[u8]) -> Option<usize>
    requires { at ≤ length told.now }
    ensures { result ≡ field_at told.now at (sized want.now) }
{
    let n = length_at(told, at)?;
    if want.len() != n {
        return None;
    }
    bytes_field(told, at + 2, want)
}

// The first bytes of a buffer, as a text; it differs where the buffer has fewer.
pub fn front_field(told: &[u8], at: usize, size: u64, out: &[u8]) -> Option<usize>
    requires { at ≤ length told.now }
    ensures { result ≡ front_at told.now at out.now size }
{
    // As it is: (d) a number of 64 bits has no From to `usize`, and `try_from` may fail.
    let n = size as usize;
    if out.len() < n {
        return None;
    }
    text_field(told, at, &out[..n])
}

// Where the text at `at` ends, its length before it; none where the record ends first.
pub fn text_end(told: &[u8], at: usize) -> Option<usize>
    requires { at ≤ length told.now }
    ensures { TextFound told.now at result }
{
    let n = length_at(told, at)?;
    if told.len() - at - 2 < n {
        return None;
    }
    Some(at + 2 + n)
}
