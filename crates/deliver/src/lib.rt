// The program `deliveries` as a function: the bytes that it prints for the bytes of its input.
#![tactic(auto)]

ghost use Rattle.std.specs.Prelude.{◌≡◌, ◌≤◌, length, drop};
ghost use Rattle.meaning.specs.Limits.{program_bytes};
ghost use Rattle.std.proofs.Math.Option.{none};
ghost use Rattle.meaning.specs.Spec.{refused};
ghost use Rattle.meaning.specs.Number.{read_bytes};
ghost use Rattle.meaning.specs.Deliveries.{printed, parted, output, deliveries};
ghost use Rattle.buffer.specs.Splice.{splice};
ghost use Rattle.refusal.specs.Numbers.{number_of};
ghost use Rattle.print.specs.Lines.{refusal_most};
ghost use Rattle.deliver.specs.Printed.{LongBuffers, Prints};

mod rows;

use limits::PROGRAM_BYTES;
use match_group::match_lhs;
use number::Number;
use print::line::put_refusal;
use refusal::Refusal;
use rows::print_rows;

// Prints the line of a refusal at the start of the buffer, and answers its length.
fn put_refused(out: &mut [u8], q: Refusal) -> usize
    requires { refusal_most ≤ length out.old }
    ensures { (out.new ≡ splice out.old 0 (output (refused (number_of q) none))) × (result ≡ length (output (refused (number_of q) none))) }
{
    put_refusal(out, q.number())
}

// Prints what a spec list and an item list give at the start of `out`, and answers how many bytes it printed. `rows` is scratch, for the row
// list; what it holds afterwards is left open.
pub fn print_lists(specs: &[u8], items: &[u8], rows: &mut [u8], out: &mut [u8]) -> usize
    requires { LongBuffers rows.old out.old }
    ensures { Prints (output (printed specs.now items.now)) out.old out.new result }
{
    let w = match_lhs(0, specs, items, rows);
    if w.refusal != 0 {
        return put_refusal(out, w.refusal);
    }
    // As it is: (d) a number of 64 bits has no From to `usize`, and `try_from` may fail.
    let n = w.length as usize;
    print_rows(&rows[..n], out)
}

// Prints what the input gives whose spec list has n bytes that begin at `at`.
fn print_parts(input: &[u8], at: usize, n: usize, rows: &mut [u8], out: &mut [u8]) -> usize
    requires { (at ≤ length input.now) × LongBuffers rows.old out.old }
    ensures { Prints (output (parted (read_bytes n (drop at input.now)))) out.old out.new result }
{
    if input.len() - at < n {
        return put_refused(out, Refusal::Malformed);
    }
    let end = at + n;
    print_lists(&input[at..end], &input[end..], rows, out)
}

// Prints what the input gives at the start of `out`, and answers how many bytes it printed. `rows` is scratch, for the row list; what it
// holds afterwards is left open.
pub fn deliver(input: &[u8], rows: &mut [u8], out: &mut [u8]) -> usize
    requires { (length rows.old ≡ program_bytes) × (program_bytes ≤ length out.old) }
    ensures { (out.new ≡ splice out.old 0 (deliveries input.now)) × (result ≡ length (deliveries input.now)) × (result ≤ program_bytes) }
{
    if PROGRAM_BYTES < input.len() {
        return put_refused(out, Refusal::ListTooLong);
    }
    match number::read(input, 0) {
        Some(Number { value, next }) => print_parts(input, next, value, rows, out),
        None => put_refused(out, Refusal::Malformed),
    }
}
