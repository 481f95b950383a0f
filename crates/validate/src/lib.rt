// The validation of a row list: its conflicts, or its kept rows and its fixes. Port of the crate's match_group/validate.rs.
// As it is: (a) an operation is the C interface's number here; `spec_list` asks question 18 of it, and here it is handed on.
#![tactic(auto)]

ghost use Rattle.std.specs.Prelude.{◌≡◌, [], ◌≤◌, length};
ghost use Rattle.meaning.specs.Bytes.{keep, each};
ghost use Rattle.meaning.specs.Rows.{row_list_of};
ghost use Rattle.meaning.specs.Validation.{conflicts, is_kept, fix_of, fix_bytes};
ghost use Rattle.meaning.specs.Entries.{validated};
ghost use Rattle.meaning.specs.Buffers.{MeetsTwo};
ghost use Rattle.row_list.specs.Lists.{rows_in, RowsRead};
ghost use Rattle.validate.specs.Answers.{nothing_told, validation_refused, short_of};
ghost use Rattle.validate.specs.Verdicts.{TellsVerdict};

use conflicts::put_conflicts;
use kept_rows::{measure, put_rows};
use list::refused::Refused;
use refusal::Refusal;
use row_list::read_rows;
use spec_list::check_specs;

// What a call tells beside its buffers: a refusal's number or 0; the record that it carries; 1 where the first buffer holds conflicts; how
// many bytes it holds, or beside 17 the length for the short buffer; how many the fix buffer holds; and beside 17 the short buffer, 1 the
// first or 2 that for fixes. A field without a meaning is 0.
// As it is: (a) C reads this record, whose fields are numbers of 64 bits.
#[repr(C)]
#[derive(Clone, Copy)]
pub struct Validation {
    pub refusal: u64,
    pub record: u64,
    pub conflicts: u64,
    pub length: u64,
    pub fixes_length: u64,
    pub buffer: u64,
}

// A call that tells nothing.
fn nothing() -> Validation
    ensures { result ≡ nothing_told }
{
    Validation {
        refusal: 0,
        record: 0,
        conflicts: 0,
        length: 0,
        fixes_length: 0,
        buffer: 0,
    }
}

// A call that is refused for what it was lent.
fn refused(e: Refused) -> Validation
    ensures { result ≡ validation_refused e }
{
    Validation {
        refusal: e.refusal.number(),
        record: e.record,
        ..nothing()
    }
}

// A call whose buffer, 1 the first or 2 that for fixes, is too short for so many bytes.
// As it is: (a) C reads which of them it is as a number.
fn short(buffer: u64, needed: usize) -> Validation
    ensures { result ≡ short_of buffer needed }
{
    Validation {
        refusal: Refusal::BufferTooShort.number(),
        length: needed as u64,
        buffer,
        ..nothing()
    }
}

// Rows without conflicts, for which both buffers have room.
fn written(rows: &[u8], specs: usize, out: &mut [u8], fixes: &mut [u8]) -> Validation
    requires { RowsRead specs rows.now × (conflicts (rows_in specs rows.now) ≡ []) × (length (row_list_of (keep is_kept (rows_in specs rows.now))) ≤ length out.old) × (length (each (each (rows_in specs rows.now) fix_of) fix_bytes) ≤ length fixes.old) }
    ensures { TellsVerdict specs rows.now out.old fixes.old out.new fixes.new result }
{
    let n = put_rows(out, fixes, rows, specs);
    Validation {
        length: n.kept as u64,
        fixes_length: n.fixed as u64,
        ..nothing()
    }
}

// Rows without conflicts, measured. Both buffers are asked before one is written.
fn measured(rows: &[u8], specs: usize, out: &mut [u8], fixes: &mut [u8]) -> Validation
    requires { RowsRead specs rows.now × (conflicts (rows_in specs rows.now) ≡ []) }
    ensures { TellsVerdict specs rows.now out.old fixes.old out.new fixes.new result }
{
    let n = measure(rows, specs);
    if out.len() < n.kept {
        short(1, n.kept)
    } else if fixes.len() < n.fixed {
        short(2, n.fixed)
    } else {
        written(rows, specs, out, fixes)
    }
}

// Rows without conflicts: those that are kept, and the fixes of the others. A buffer as long as the row list has room without measuring.
fn passed(rows: &[u8], specs: usize, out: &mut [u8], fixes: &mut [u8]) -> Validation
    requires { RowsRead specs rows.now × (conflicts (rows_in specs rows.now) ≡ []) }
    ensures { TellsVerdict specs rows.now out.old fixes.old out.new fixes.new result }
{
    if rows.len() <= out.len() && rows.len() <= fixes.len() {
        written(rows, specs, out, fixes)
    } else {
        measured(rows, specs, out, fixes)
    }
}

// Rows that were read, so many: conflicts are looked for before a row goes out. The fix buffer is left alone where there are any.
fn judged(rows: &[u8], specs: usize, count: usize, out: &mut [u8], fixes: &mut [u8]) -> Validation
    requires { RowsRead specs rows.now × (count ≡ length (rows_in specs rows.now)) }
    ensures { TellsVerdict specs rows.now out.old fixes.old out.new fixes.new result }
{
    let room = out.len();
    let size = put_conflicts(out, rows, specs, count);
    if size == 0 {
        return passed(rows, specs, out, fixes);
    }
    if room < size {
        return short(1, size);
    }
    Validation {
        conflicts: 1,
        length: size as u64,
        ..nothing()
    }
}

// Validates a row list under a spec list: conflicts go to `out`, or kept rows to `out` and fixes to `fixes`.
pub fn validated(op: u64, specs: &[u8], rows: &[u8], out: &mut [u8], fixes: &mut [u8]) -> Validation
    ensures { MeetsTwo (validated op specs.now rows.now) out.old fixes.old out.new fixes.new result.refusal result.record result.conflicts result.length result.fixes_length result.buffer }
{
    let n = match check_specs(op, specs) {
        Ok(n) => n,
        Err(e) => return refused(e),
    };
    let count = match read_rows(rows, n) {
        Ok(count) => count,
        Err(e) => return refused(e),
    };
    judged(rows, n, count, out, fixes)
}
