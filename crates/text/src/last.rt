// The last place of a byte.
ghost use Rattle.std.specs.Prelude.{◌≡◌, ◌+◌, ◌<◌, ◌≤◌, ◌==◌, true, MatchOption, length, slice_index};
ghost use Rattle.meaning.specs.Bytes.{has_byte};
ghost use Rattle.text.specs.Last.{past_last, NoneFrom};

// The place of the last b of s, looked for byte by byte.
fn last_place(b: u8, s: &[u8]) -> Option<usize>
    ensures { MatchOption result (NoneFrom b s.now 0) (λ i. (i < length s.now) × ((b == slice_index s.now i) ≡ true) × NoneFrom b s.now (i + 1)) }
{
    s.iter().rposition(|x| b == *x)
}

// b is one of sixteen bytes. All are asked without a branch, so that the compiler asks them at once.
// As it is: (b) `block.contains(&b)` is a call for each block, by which the reading of specs takes 11 percent more instructions.
fn is_among(b: u8, block: &[u8; 16]) -> bool
    ensures { result ≡ has_byte b block.now }
{
    let mut found = false;
    for x in block {
        found |= b == *x;
    }
    found
}

// How many bytes s has up to its last b and with it, if it has one. Looked for from the end, sixteen bytes a turn.
pub fn past_last(b: u8, s: &[u8]) -> Option<usize>
    ensures { MatchOption result (past_last b s.now ≡ 0) (λ n. (n ≡ past_last b s.now) × (0 < n) × (n ≤ length s.now)) }
{
    let mut rest = s;
    // As it is: (d) the front that is left where a block has b is wanted after the loop.
    while let Some((front, block)) = rest.split_last_chunk::<16>() {
        if is_among(b, block) {
            break;
        }
        rest = front;
    }
    Some(last_place(b, rest)? + 1)
}
