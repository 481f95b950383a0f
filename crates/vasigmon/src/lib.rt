// The C interface: include/vasigmon.h declares what stands here. Each entry hands its arguments to the function behind it and gives the
// answer as plain numbers; no entry asks anything of its caller.
// As it is: (a) an operation is the C interface's number; `parse` and `spec_list` ask question 18 of it, and here it is handed on.
#![tactic(auto)]

ghost use Rattle.std.specs.Prelude.{◌≡◌};
ghost use Rattle.meaning.specs.Buffers.{MeetsOne, MeetsMaybe, MeetsTwo};
ghost use Rattle.meaning.specs.Entries.{to_bstring, expanded, match_lhs, match_rhs, validated};
ghost use Rattle.meaning.specs.View.{source_view};
ghost use Rattle.meaning.specs.Collide.{collide_bytes};
ghost use Rattle.parse.specs.Places.{parsed};
ghost use Rattle.refspec.specs.Instructions.{instructed_places};
ghost use Rattle.refspec.specs.Prefixes.{prefixed_places};
ghost use Rattle.prefixes.specs.Group.{MeetsPrefixes};
ghost use Rattle.view.specs.Places.{part_of};
ghost use Rattle.answers.specs.Numbers.{spec_answer, instruction_answer, prefix_answer};

use answers::{
    InstructionAnswer, PrefixAnswer, SpecAnswer, instruction_answer, prefix_answer, spec_answer,
};
use buffer::written::Written;
use collide::answer::Collision;
use collide::collide;
use expand::expand_prefixes;
use match_group::{match_lhs, match_rhs};
use parse::parse;
use prefixes::group_prefixes;
use refspec::spec::{instruction, prefix};
use validate::{Validation, validated};
use view::{Part, source};
use write::to_bstring;

// Reads one spec for an operation, 0 fetch or 1 push.
#[unsafe(no_mangle)]
pub extern "C" fn vasigmon_parse(op: u64, spec: &[u8]) -> SpecAnswer
    ensures { result ≡ spec_answer (parsed op spec.now) }
{
    spec_answer(parse(op, spec))
}

// What a spec instructs.
#[unsafe(no_mangle)]
pub extern "C" fn vasigmon_instruction(op: u64, spec: &[u8]) -> InstructionAnswer
    ensures { result ≡ instruction_answer (instructed_places op spec.now) }
{
    instruction_answer(instruction(op, spec))
}

// The prefix of a spec.
#[unsafe(no_mangle)]
pub extern "C" fn vasigmon_prefix(op: u64, spec: &[u8]) -> PrefixAnswer
    ensures { result ≡ prefix_answer (prefixed_places op spec.now) }
{
    prefix_answer(prefix(op, spec))
}

// The prefixes that a spec yields, as a prefix list.
#[unsafe(no_mangle)]
pub extern "C" fn vasigmon_expand_prefixes(op: u64, spec: &[u8], out: &mut [u8]) -> Written
    ensures { MeetsOne (expanded op spec.now) out.old out.new result.refusal result.record result.length }
{
    expand_prefixes(op, spec, out)
}

// The canonical text of a spec.
#[unsafe(no_mangle)]
pub extern "C" fn vasigmon_to_bstring(op: u64, spec: &[u8], out: &mut [u8]) -> Written
    ensures { MeetsOne (to_bstring op spec.now) out.old out.new result.refusal result.record result.length }
{
    to_bstring(op, spec, out)
}

// The prefixes that the specs of a list yield, each once, as a prefix list.
#[unsafe(no_mangle)]
pub extern "C" fn vasigmon_group_prefixes(op: u64, specs: &[u8], out: &mut [u8]) -> Written
    ensures { MeetsPrefixes op specs.now out.old out.new result.refusal result.record result.length }
{
    group_prefixes(op, specs, out)
}

// The forward listing of the items under the specs, as a row list.
#[unsafe(no_mangle)]
pub extern "C" fn vasigmon_match_lhs(op: u64, specs: &[u8], items: &[u8], out: &mut [u8]) -> Written
    ensures { MeetsOne (match_lhs op specs.now items.now) out.old out.new result.refusal result.record result.length }
{
    match_lhs(op, specs, items, out)
}

// The reverse listing of the items under the specs, as a row list.
#[unsafe(no_mangle)]
pub extern "C" fn vasigmon_match_rhs(op: u64, specs: &[u8], items: &[u8], out: &mut [u8]) -> Written
    ensures { MeetsOne (match_rhs op specs.now items.now) out.old out.new result.refusal result.record result.length }
{
    match_rhs(op, specs, items, out)
}

// The validation of a row list under the specs: conflicts in `out`, or kept rows in `out` and fixes in `fixes`.
#[unsafe(no_mangle)]
pub extern "C" fn vasigmon_validated(
    op: u64,
    specs: &[u8],
    rows: &[u8],
    out: &mut [u8],
    fixes: &mut [u8],
) -> Validation
    ensures { MeetsTwo (validated op specs.now rows.now) out.old fixes.old out.new fixes.new result.refusal result.record result.conflicts result.length result.fixes_length result.buffer }
{
    validated(op, specs, rows, out, fixes)
}

// The source view of a forward row's item field and spec number, as a part of one of the two lists.
#[unsafe(no_mangle)]
pub extern "C" fn vasigmon_source(
    op: u64,
    specs: &[u8],
    items: &[u8],
    item_field: u64,
    spec: u64,
) -> Part
    ensures { result ≡ part_of (source_view op specs.now items.now item_field spec) }
{
    source(op, specs, items, item_field, spec)
}

// Whether two fetch specs can ever collide, and a destination on which they do.
#[unsafe(no_mangle)]
pub extern "C" fn vasigmon_collide(first: &[u8], second: &[u8], out: &mut [u8]) -> Collision
    ensures { MeetsMaybe (collide_bytes first.now second.now) out.old out.new result.refusal result.which result.collides result.length }
{
    collide(first, second, out)
}
