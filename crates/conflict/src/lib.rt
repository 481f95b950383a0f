//! The conflict of a run, the rows of one destination, if two of them have different sources: measured and written. Port of
//! `Issue::Conflict` and of how it is found in the crate's match_group/validate.rs.
// As it is: (a) as for `order::sort`, the places and the scratch are lent.
#![tactic(auto)]

ghost use Rattle.std.specs.Prelude.{◌≡◌, ◌+◌, ◌*◌, ◌≤◌, ◌<◌, length};
ghost use Rattle.buffer.specs.Splice.{RoomFor, Puts};
ghost use Rattle.meaning.specs.Limits.{row_list_bytes};
ghost use Rattle.meaning.specs.Number.{text_bytes};
ghost use Rattle.order.specs.Rooms.{HalfRoom};
ghost use Rattle.conflict.specs.Sizes.{conflict_destination_most, conflict_source_most, conflict_row_most};
ghost use Rattle.conflict.specs.Shared.{destination_at, OneRun, run_bytes, head_at, listed_at, sources_at, firsts_at};

mod sources;

use keys::key::{Place, Source};
use order::run::{keep_firsts, pair_firsts};
use order::sort::sort;
use row_fields::destination_at;
use sources::{heads_size, put_sources, put_text, sources_size};

// How many bytes the destination of the row at a place takes with its length.
fn destination_size(rows: &[u8], p: usize) -> usize
    requires { length rows.now ≤ row_list_bytes }
    ensures { (result ≡ length (text_bytes (destination_at rows.now p))) × (result ≤ conflict_destination_most) }
{
    let dst = destination_at(rows, p);
    number::size(dst.len) + dst.len
}

// Writes the destination of the row at a place with its length, and answers the place after it.
fn put_destination(out: &mut [u8], to: usize, rows: &[u8], p: usize) -> usize
    requires { (length rows.now ≤ row_list_bytes) × RoomFor out.old to (text_bytes (destination_at rows.now p)) }
    ensures { Puts out.old to (text_bytes (destination_at rows.now p)) out.new result }
{
    let dst = destination_at(rows, p);
    put_text(out, to, rows, dst.at, dst.len)
}

// How many bytes a destination takes with the rows at places, each of which has another source.
fn listed_size(rows: &[u8], firsts: &[u32]) -> usize
    requires { (0 < length firsts.now) × (length rows.now ≤ row_list_bytes) × (length firsts.now ≤ row_list_bytes) }
    ensures { (result ≡ length (listed_at rows.now firsts.now)) × (result ≤ length firsts.now * conflict_row_most) }
{
    destination_size(rows, firsts[0] as usize)
        + number::size(firsts.len())
        + sources_size(rows, firsts)
}

// Writes the destination of the rows at places and how many they are, and answers the place after them.
fn put_head(out: &mut [u8], to: usize, rows: &[u8], firsts: &[u32]) -> usize
    requires { (0 < length firsts.now) × (length rows.now ≤ row_list_bytes) × (length firsts.now ≤ row_list_bytes) × RoomFor out.old to (head_at rows.now firsts.now) }
    ensures { Puts out.old to (head_at rows.now firsts.now) out.new result }
{
    let i = put_destination(out, to, rows, firsts[0] as usize);
    number::put(out, i, firsts.len())
}

// Writes a destination with the rows at places: itself, how many, and their sources. Answers the place after them.
fn put_listed(out: &mut [u8], to: usize, rows: &[u8], firsts: &[u32]) -> usize
    requires { (0 < length firsts.now) × (length rows.now ≤ row_list_bytes) × (length firsts.now ≤ row_list_bytes) × RoomFor out.old to (listed_at rows.now firsts.now) }
    ensures { Puts out.old to (listed_at rows.now firsts.now) out.new result }
{
    let i = put_head(out, to, rows, firsts);
    put_sources(out, i, rows, firsts)
}

// How many bytes the conflict of a run of two takes; 0 where both have one source.
fn pair_size(rows: &[u8], run: &[u32]) -> usize
    requires { OneRun rows.now run.now × (length run.now ≡ 2) × (length rows.now ≤ row_list_bytes) }
    ensures { (result ≡ length (run_bytes rows.now run.now)) × (result ≤ length run.now * conflict_row_most) }
{
    let count = pair_firsts::<Source>(rows, run);
    if count < 2 {
        return 0;
    }
    listed_size(rows, &run[..count])
}

// How many bytes the conflict of a run takes that has so many sources, which take so many bytes.
fn counted_size(rows: &[u8], run: &[u32], sources: usize, size: usize) -> usize
    requires { OneRun rows.now run.now × (0 < length run.now) × (length rows.now ≤ row_list_bytes) × (length run.now ≤ row_list_bytes) × (sources ≡ length (firsts_at rows.now run.now)) × (sources ≤ length run.now) × (size ≡ length (sources_at rows.now (firsts_at rows.now run.now))) × (size ≤ length run.now * conflict_source_most) }
    ensures { (result ≡ length (run_bytes rows.now run.now)) × (result ≤ length run.now * conflict_row_most) }
{
    if sources < 2 {
        0
    } else {
        destination_size(rows, run[0] as usize) + number::size(sources) + size
    }
}

// How many bytes the conflict of a run takes, by a sort that brings the rows of a source together, and one back to place order.
fn sorted_run_size(rows: &[u8], run: &mut [u32], scratch: &mut [u32]) -> usize
    requires { OneRun rows.now run.old × (0 < length run.old) × (length rows.now ≤ row_list_bytes) × (length run.old ≤ row_list_bytes) × HalfRoom run.old scratch.old }
    ensures { (result ≡ length (run_bytes rows.now run.old)) × (result ≤ length run.old * conflict_row_most) × (run.new ≡ run.old) }
{
    sort::<Source>(rows, run, scratch);
    let heads = heads_size(rows, run);
    sort::<Place>(rows, run, scratch);
    counted_size(rows, run, heads.count, heads.size)
}

// How many bytes the conflict of a run takes; 0 where all its rows have one source. The run is left as it was; what `scratch` holds
// afterwards is left open.
pub fn run_size(rows: &[u8], run: &mut [u32], scratch: &mut [u32]) -> usize
    requires { OneRun rows.now run.old × (0 < length run.old) × (length rows.now ≤ row_list_bytes) × (length run.old ≤ row_list_bytes) × HalfRoom run.old scratch.old }
    ensures { (result ≡ length (run_bytes rows.now run.old)) × (result ≤ length run.old * conflict_row_most) × (run.new ≡ run.old) }
{
    match run.len() {
        0 | 1 => 0,
        2 => pair_size(rows, run),
        _ => sorted_run_size(rows, run, scratch),
    }
}

// Writes the conflict of a run, if its rows have different sources, and answers the place after it. The run is used up: what it holds
// afterwards, and what `scratch` holds, is left open.
pub fn put_run(
    out: &mut [u8],
    to: usize,
    rows: &[u8],
    run: &mut [u32],
    scratch: &mut [u32],
) -> usize
    requires { OneRun rows.now run.old × (0 < length run.old) × (length rows.now ≤ row_list_bytes) × (length run.old ≤ row_list_bytes) × HalfRoom run.old scratch.old × RoomFor out.old to (run_bytes rows.now run.old) }
    ensures { Puts out.old to (run_bytes rows.now run.old) out.new result }
{
    if run.len() < 2 {
        return to;
    }
    let n = keep_firsts::<Source>(rows, run, scratch);
    if n < 2 {
        return to;
    }
    put_listed(out, to, rows, &run[..n])
}
