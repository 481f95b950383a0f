// Hands many inputs to the function behind the program `deliveries`, which standard input brings one after the other, each after its
// length in four bytes, the lowest first, and writes what each prints after a line with its number.
#![tactic(auto)]

use deliver::deliver;
use limits::PROGRAM_BYTES;
use std::io::{Read, Write};
use stdio::INPUT_ROOM;

// Prints what an input gives.
fn print_input<W: Write>(output: &mut W, input: &[u8]) {
    let mut rows = [0u8; PROGRAM_BYTES];
    let mut out = [0u8; PROGRAM_BYTES];
    let size = deliver(input, &mut rows, &mut out);
    let _ = output.write_all(&out[..size]);
}

// Reads the next input, after its length, and prints its number and what it gives; None where there is none, or no whole one.
fn print_next<R: Read, W: Write>(from: &mut R, output: &mut W, number: u64) -> Option<()> {
    let mut four = [0u8; 4];
    from.read_exact(&mut four).ok()?;
    let _ = writeln!(output, "input {number}");
    let mut buffer = [0u8; INPUT_ROOM];
    let input = buffer.get_mut(..u32::from_le_bytes(four) as usize)?;
    from.read_exact(input).ok()?;
    print_input(output, input);
    Some(())
}

// No list of inputs uses up the numbers.
fn main(rt: HostRuntime) {
    for number in 0..u64::MAX {
        if print_next(&mut rt.stdin(), &mut rt.stdout(), number).is_none() {
            break;
        }
    }
}
