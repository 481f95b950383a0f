// The prefix list of a group of specs: each prefix that some spec yields, once, in first-seen order.
// As it is: (a) an operation is the C interface's number here; `spec_list` asks question 18 of it, and here it is handed on.
#![tactic(auto)]

ghost use Rattle.std.specs.Prelude.{[], ◌∷◌, ◌+◌, ◌≤◌, length, take};
ghost use Rattle.std.proofs.Math.Option.{some};
ghost use Rattle.meaning.specs.Limits.{spec_list_bytes, spec_count};
ghost use Rattle.meaning.specs.Spec.{accepted};
ghost use Rattle.meaning.specs.Number.{record_bytes};
ghost use Rattle.meaning.specs.Prefix.{candidates, expand_prefixes};
ghost use Rattle.meaning.specs.Buffers.{MeetsOne};
ghost use Rattle.parse.specs.Places.{part_at, SidesWithin, spec_meant};
ghost use Rattle.expand.specs.Yields.{yield_meant, YieldWithin};
ghost use Rattle.spec_list.specs.Group.{group_meant, AllWithin};
ghost use Rattle.prefixes.specs.Table.{table_texts, Entries, Entered};
ghost use Rattle.frames.specs.Frames.{longest_frame};
ghost use Rattle.prefixes.specs.Group.{group_texts, group_prefixes, texts_most, table_room, Collected};

mod entry;
mod table;

use buffer::written::{Written, done, refused, short};
use entry::Entry;
use expand::{Yield, yield_of};
use frames::{FRAMES, LONGEST_FRAME};
use limits::{SPEC_COUNT, SPEC_LIST_BYTES};
use list::stretch::Stretch;
use parse::types::RefSpec;
use refspec::spec::remote;
use spec_list::read_specs;
use spec_list::record::{SpecRecord, spec_from};
use spec_list::table::spec_of;
use table::{add, put_table, table_size};

// How many specs, and how many bytes of a spec list, a small table has room for.
const FEW: usize = 16;

const SHORT: usize = 64 * FEW;

// How many texts they yield, a candidate for each frame at most, and how many all specs do.
const FEW_TEXTS: usize = FRAMES * FEW;

const TEXTS: usize = FRAMES * SPEC_COUNT;

// Bytes of the longest text of an entry: such a spec list in the longest frame, and any.
const SHORT_SCRATCH: usize = SHORT + LONGEST_FRAME;

const SCRATCH: usize = SPEC_LIST_BYTES + LONGEST_FRAME;

// Enters the candidates of a name; how many entries the table has then.
fn add_six(
    specs: &[u8],
    table: &mut [Entry],
    count: usize,
    scratch: &mut [u8],
    name: Stretch,
) -> usize
    requires { Entries (length specs.now) (take count table.old) × (name.at + name.len ≤ length specs.now) × (count + 6 ≤ length table.old) × (length specs.now + longest_frame ≤ length scratch.old) }
    ensures { Entered specs.now (candidates (part_at specs.now name.at name.len)) table.old count table.new result }
{
    let mut c = count;
    for frame in 0..FRAMES {
        c = add(specs, table, c, scratch, Entry { frame, name });
    }
    c
}

// Enters the texts of a yield; how many entries the table has then.
fn add_yield(specs: &[u8], table: &mut [Entry], count: usize, scratch: &mut [u8], y: Yield) -> usize
    requires { Entries (length specs.now) (take count table.old) × YieldWithin (length specs.now) y × (count + 6 ≤ length table.old) × (length specs.now + longest_frame ≤ length scratch.old) }
    ensures { Entered specs.now (yield_meant specs.now y) table.old count table.new result }
{
    match y {
        Yield::Nothing => count,
        Yield::One(side) => add(specs, table, count, scratch, Entry::from(side)),
        Yield::Six(at, len) => add_six(specs, table, count, scratch, Stretch { at, len }),
    }
}

// Enters the texts that a spec yields; how many entries the table has then.
fn add_spec(
    op: u64,
    specs: &[u8],
    r: RefSpec,
    table: &mut [Entry],
    count: usize,
    scratch: &mut [u8],
) -> usize
    requires { Entries (length specs.now) (take count table.old) × SidesWithin (length specs.now) r × (count + 6 ≤ length table.old) × (length specs.now + longest_frame ≤ length scratch.old) }
    ensures { Entered specs.now (expand_prefixes op (spec_meant specs.now r)) table.old count table.new result }
{
    let y = yield_of(specs, remote(op, r));
    add_yield(specs, table, count, scratch, y)
}

// Enters the texts that the first n specs of a table yield; how many there are.
fn collect(
    op: u64,
    specs: &[u8],
    group: &[SpecRecord; SPEC_COUNT],
    n: usize,
    table: &mut [Entry],
    scratch: &mut [u8],
) -> usize
    requires { (n ≤ spec_count) × AllWithin (length specs.now) (take n group.now) × (table_room n ≤ length table.old) × (length specs.now + longest_frame ≤ length scratch.old) }
    ensures { Collected op specs.now (group_meant specs.now (take n group.now)) table.new result }
{
    let mut count = 0;
    for i in 0..n {
        let r = spec_from(spec_of(*group, n, i));
        count = add_spec(op, specs, r, table, count, scratch);
    }
    count
}

// The texts of a table as a prefix list.
fn list_table(specs: &[u8], table: &[Entry], out: &mut [u8]) -> Written
    requires { Entries (length specs.now) table.now × (length specs.now ≤ spec_list_bytes) × (length table.now ≤ texts_most) }
    ensures { MeetsOne (accepted (some (record_bytes (table_texts specs.now table.now)) ∷ [])) out.old out.new result.refusal result.record result.length }
{
    let size = table_size(specs, table);
    if out.len() < size {
        short(size)
    } else {
        put_table(out, specs, table);
        done(size)
    }
}

// The prefix list of the first n specs of a table, which yield at most N texts, none of which has more than M bytes. Not inlined, so that
// the table of each size is in a frame of its own: in one frame, few specs would take the stack of many.
// As it is: (a) there is no heap, so the table and the text that is spelt stand in arrays.
#[inline(never)]
fn list_in_room<const N: usize, const M: usize>(
    op: u64,
    specs: &[u8],
    group: &[SpecRecord; SPEC_COUNT],
    n: usize,
    out: &mut [u8],
) -> Written
    requires { (n ≤ spec_count) × AllWithin (length specs.now) (take n group.now) × (length specs.now ≤ spec_list_bytes) × (table_room n ≤ N) × (N ≤ texts_most) × (length specs.now + longest_frame ≤ M) × (M ≤ spec_list_bytes + longest_frame) }
    ensures { MeetsOne (accepted (some (record_bytes (group_texts op (group_meant specs.now (take n group.now)))) ∷ [])) out.old out.new result.refusal result.record result.length }
{
    let mut table = [Entry::empty(); N];
    let mut scratch = [0u8; M];
    let count = collect(op, specs, group, n, &mut table, &mut scratch);
    list_table(specs, &table[..count], out)
}

// The prefix list of the first n specs of a table, by a table that has room for their texts.
fn list_group(
    op: u64,
    specs: &[u8],
    group: &[SpecRecord; SPEC_COUNT],
    n: usize,
    out: &mut [u8],
) -> Written
    requires { (n ≤ spec_count) × AllWithin (length specs.now) (take n group.now) × (length specs.now ≤ spec_list_bytes) }
    ensures { MeetsOne (accepted (some (record_bytes (group_texts op (group_meant specs.now (take n group.now)))) ∷ [])) out.old out.new result.refusal result.record result.length }
{
    if n <= FEW && specs.len() <= SHORT {
        list_in_room::<FEW_TEXTS, SHORT_SCRATCH>(op, specs, group, n, out)
    } else {
        list_in_room::<TEXTS, SCRATCH>(op, specs, group, n, out)
    }
}

// The prefix list of the group that a spec list holds, in first-seen order, for an operation, 0 fetch or 1 push.
pub fn group_prefixes(op: u64, specs: &[u8], out: &mut [u8]) -> Written
    ensures { MeetsOne (group_prefixes op specs.now) out.old out.new result.refusal result.record result.length }
{
    match read_specs(op, specs) {
        Ok(g) => list_group(op, specs, &g.specs, g.count, out),
        Err(e) => refused(e.refusal.number(), e.record),
    }
}
