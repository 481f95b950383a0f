// Copying a text into a buffer, several bytes at once: they are read before the first is stored, so that it is one load and one store.
ghost use Rattle.std.specs.Prelude.{◌≡◌, [], ◌∷◌, ◌+◌, ◌≤◌, ◌<◌, length, take, drop};
ghost use Rattle.buffer.specs.Splice.{splice, RoomFor, Puts};

// Stores four bytes one after the other.
fn store_four(dst: &mut [u8], at: usize, a: u8, b: u8, c: u8, d: u8)
    requires { at + 4 ≤ length dst.old }
    ensures { dst.new ≡ splice dst.old at (a ∷ b ∷ c ∷ d ∷ []) }
{
    dst[at] = a;
    dst[at + 1] = b;
    dst[at + 2] = c;
    dst[at + 3] = d;
}

// Writes the four bytes of src from i on into dst at a place.
fn copy_four(dst: &mut [u8], at: usize, src: &[u8], i: usize)
    requires { (i + 4 ≤ length src.now) × (at + 4 ≤ length dst.old) }
    ensures { dst.new ≡ splice dst.old at (take 4 (drop i src.now)) }
{
    store_four(dst, at, src[i], src[i + 1], src[i + 2], src[i + 3]);
}

// Writes the eight bytes of src from i on into dst at a place.
fn copy_eight(dst: &mut [u8], at: usize, src: &[u8], i: usize)
    requires { (i + 8 ≤ length src.now) × (at + 8 ≤ length dst.old) }
    ensures { dst.new ≡ splice dst.old at (take 8 (drop i src.now)) }
{
    let a = src[i];
    let b = src[i + 1];
    let c = src[i + 2];
    let d = src[i + 3];
    let e = src[i + 4];
    let f = src[i + 5];
    let g = src[i + 6];
    let h = src[i + 7];
    store_four(dst, at, a, b, c, d);
    store_four(dst, at + 4, e, f, g, h);
}

// Writes src byte by byte, and answers the place after it.
pub(crate) fn put_by_bytes(dst: &mut [u8], at: usize, src: &[u8]) -> usize
    requires { RoomFor dst.old at src.now }
    ensures { Puts dst.old at src.now dst.new result }
{
    for (i, b) in src.iter().enumerate() {
        dst[at + i] = *b;
    }
    at + src.len()
}

// Writes src, which has four bytes to seven: the first four, and the last four over them. Answers the place after it.
pub(crate) fn put_by_fours(dst: &mut [u8], at: usize, src: &[u8]) -> usize
    requires { (4 ≤ length src.now) × (length src.now < 8) × RoomFor dst.old at src.now }
    ensures { Puts dst.old at src.now dst.new result }
{
    let last = src.len() - 4;
    copy_four(dst, at, src, 0);
    copy_four(dst, at + last, src, last);
    at + src.len()
}

// Writes src, which has eight bytes or more: eight at a time while more are left, and the last eight over them. Answers the place after it.
pub(crate) fn put_by_eights(dst: &mut [u8], at: usize, src: &[u8]) -> usize
    requires { (8 ≤ length src.now) × RoomFor dst.old at src.now }
    ensures { Puts dst.old at src.now dst.new result }
{
    let last = src.len() - 8;
    for i in (0..last).step_by(8) {
        copy_eight(dst, at + i, src, i);
    }
    copy_eight(dst, at + last, src, last);
    at + src.len()
}
