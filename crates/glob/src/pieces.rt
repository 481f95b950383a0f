// A name that stands in three pieces, against a text and against a pattern: it is not put together.
ghost use Rattle.std.specs.Prelude.{◌≡◌, ◌++◌, suc, ◌+◌, ◌<◌, eqb, leb, length, take, drop};
ghost use Rattle.meaning.specs.Bytes.{same, begins, ends, present};
ghost use Rattle.meaning.specs.Match.{capture};

// n is the sum of three numbers.
// As it is: (d) three lengths may come to more than a number holds, so each is taken away and not added; with
// `a.checked_add(b).and_then(|x| x.checked_add(c)) == Some(n)` two results would be asked for one answer.
fn is_sum(n: usize, a: usize, b: usize, c: usize) -> bool
    ensures { result ≡ eqb n (a + (b + c)) }
{
    if n < a {
        return false;
    }
    if n - a < b {
        return false;
    }
    n - a - b == c
}

// n is at most the sum of three numbers.
fn at_most_sum(n: usize, a: usize, b: usize, c: usize) -> bool
    ensures { result ≡ leb n (a + (b + c)) }
{
    n <= a.saturating_add(b).saturating_add(c)
}

// Two pieces begin with p. What is past the first is asked first: texts that begin alike differ there.
fn two_begin(p: &[u8], a: &[u8], b: &[u8]) -> bool
    ensures { result ≡ begins p.now (a.now ++ b.now) }
{
    if p.len() <= a.len() {
        return compare::begins(p, a);
    }
    if !compare::begins(&p[a.len()..], b) {
        return false;
    }
    compare::begins(a, p)
}

// Three pieces begin with p.
fn pieces_begin(p: &[u8], a: &[u8], b: &[u8], c: &[u8]) -> bool
    ensures { result ≡ begins p.now (a.now ++ (b.now ++ c.now)) }
{
    if p.len() <= a.len() {
        return compare::begins(p, a);
    }
    if !two_begin(&p[a.len()..], b, c) {
        return false;
    }
    compare::begins(a, p)
}

// Two pieces end with q.
fn two_end(q: &[u8], a: &[u8], b: &[u8]) -> bool
    ensures { result ≡ ends q.now (a.now ++ b.now) }
{
    if q.len() <= b.len() {
        return compare::ends(q, b);
    }
    if !compare::ends(&q[..q.len() - b.len()], a) {
        return false;
    }
    compare::ends(b, q)
}

// Three pieces end with q.
fn pieces_end(q: &[u8], a: &[u8], b: &[u8], c: &[u8]) -> bool
    ensures { result ≡ ends q.now ((a.now ++ b.now) ++ c.now) }
{
    if q.len() <= c.len() {
        return compare::ends(q, c);
    }
    if !two_end(&q[..q.len() - c.len()], a, b) {
        return false;
    }
    compare::ends(c, q)
}

// Three pieces are t: its length decides first, and then the second piece, where texts that begin alike differ.
pub fn pieces_same(t: &[u8], a: &[u8], b: &[u8], c: &[u8]) -> bool
    ensures { result ≡ same t.now (a.now ++ (b.now ++ c.now)) }
{
    if !is_sum(t.len(), a.len(), b.len(), c.len()) {
        return false;
    }
    let i = a.len();
    let j = i + b.len();
    if !compare::begins(b, &t[i..]) {
        return false;
    }
    if !compare::begins(a, t) {
        return false;
    }
    compare::begins(c, &t[j..])
}

// Three pieces match a text t whose star stands at a place: its start and its end do not overlap.
pub fn pieces_glob(t: &[u8], star: usize, a: &[u8], b: &[u8], c: &[u8]) -> bool
    requires { star < length t.now }
    ensures { result ≡ present (capture (take star t.now) (drop (suc star) t.now) (a.now ++ (b.now ++ c.now))) }
{
    if !at_most_sum(t.len() - 1, a.len(), b.len(), c.len()) {
        return false;
    }
    if !pieces_begin(&t[..star], a, b, c) {
        return false;
    }
    pieces_end(&t[star + 1..], a, b, c)
}
