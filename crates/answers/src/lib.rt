// The answers about one spec in the numbers of the C interface.
#![tactic(auto)]

ghost use Rattle.std.specs.Prelude.{◌≡◌};
ghost use Rattle.answers.specs.Numbers.{mode_number, side_numbers, side_answer, spec_refused, spec_accepted, spec_answer, instruction_refused, instruction_told, instruction_accepted, instruction_answer, prefix_refused, prefix_accepted, prefix_answer};

use parse::types::{Mode, RefSpec, Side};
use refspec::instruction::Instruction;
use refusal::Refusal;

// As it is: (a) what is told to C stands in records of numbers, 0 where a field has no meaning; so each answer has a refusal's number
// beside its fields, and the three answers differ in their records.

// A side of a spec: its kind, where it begins and how many bytes it has. In the header its three fields stand in the answers themselves.
#[repr(C)]
#[derive(Clone, Copy)]
pub struct SideAnswer {
    pub kind: u64,
    pub start: u64,
    pub length: u64,
}

// A spec: `vasigmon_spec` of the header.
#[repr(C)]
#[derive(Clone, Copy)]
pub struct SpecAnswer {
    pub refusal: u64,
    pub mode: u64,
    pub source: SideAnswer,
    pub destination: SideAnswer,
}

// An instruction: `vasigmon_instruction_t` of the header.
#[repr(C)]
#[derive(Clone, Copy)]
pub struct InstructionAnswer {
    pub refusal: u64,
    pub kind: u64,
    pub force: u64,
    pub source: SideAnswer,
    pub destination: SideAnswer,
}

// A prefix: `vasigmon_prefix_t` of the header.
#[repr(C)]
#[derive(Clone, Copy)]
pub struct PrefixAnswer {
    pub refusal: u64,
    pub prefix: SideAnswer,
}

impl SideAnswer {
    // A side by its three numbers.
    fn new(kind: u64, start: u64, length: u64) -> SideAnswer
        ensures { result ≡ side_numbers kind start length }
    {
        SideAnswer {
            kind,
            start,
            length,
        }
    }
}

// A side in numbers: 0 absent, 1 a place in the spec, 2 the supplied `HEAD`.
impl From<Side> for SideAnswer {
    ghost from_gives = { λ side a. a ≡ side_answer side };

    fn from(side: Side) -> SideAnswer {
        match side {
            Side::Absent => SideAnswer::new(0, 0, 0),
            Side::Part(at, n) => SideAnswer::new(1, at as u64, n as u64),
            Side::Head => SideAnswer::new(2, 0, 0),
        }
    }
}

// The number of a mode: 0 normal, 1 force, 2 negative.
// As it is: (d) no `From`, for neither `Mode` nor `u64` is a type of this crate, and no `as`, which would make the order of the cases of
// `Mode` the numbers of C.
fn mode_number(m: Mode) -> u64
    ensures { result ≡ mode_number m }
{
    match m {
        Mode::Normal => 0,
        Mode::Force => 1,
        Mode::Negative => 2,
    }
}

// A refused spec.
fn spec_refused(n: u64) -> SpecAnswer
    ensures { result ≡ spec_refused n }
{
    SpecAnswer {
        refusal: n,
        mode: 0,
        source: Side::Absent.into(),
        destination: Side::Absent.into(),
    }
}

// An accepted spec.
fn spec_accepted(r: RefSpec) -> SpecAnswer
    ensures { result ≡ spec_accepted r }
{
    SpecAnswer {
        refusal: 0,
        mode: mode_number(r.mode),
        source: r.src.into(),
        destination: r.dst.into(),
    }
}

// A refused instruction.
fn told_refused(n: u64) -> InstructionAnswer
    ensures { result ≡ instruction_refused n }
{
    InstructionAnswer {
        refusal: n,
        kind: 0,
        force: 0,
        source: Side::Absent.into(),
        destination: Side::Absent.into(),
    }
}

// An instruction by its kind, its force and its sides.
fn told(kind: u64, force: bool, src: Side, dst: Side) -> InstructionAnswer
    ensures { result ≡ instruction_told kind force src dst }
{
    InstructionAnswer {
        refusal: 0,
        kind,
        force: u64::from(force),
        source: src.into(),
        destination: dst.into(),
    }
}

// An instruction; a side that its kind has not is absent.
fn told_instruction(i: Instruction) -> InstructionAnswer
    ensures { result ≡ instruction_accepted i }
{
    match i {
        Instruction::FetchOnly { src } => told(0, false, src, Side::Absent),
        Instruction::FetchExclude { src } => told(1, false, src, Side::Absent),
        Instruction::FetchAndUpdate {
            src,
            dst,
            allow_non_fast_forward,
        } => told(2, allow_non_fast_forward, src, dst),
        Instruction::PushAllMatchingBranches {
            allow_non_fast_forward,
        } => told(3, allow_non_fast_forward, Side::Absent, Side::Absent),
        Instruction::PushDelete { ref_or_pattern } => told(4, false, Side::Absent, ref_or_pattern),
        Instruction::PushMatching {
            src,
            dst,
            allow_non_fast_forward,
        } => told(5, allow_non_fast_forward, src, dst),
        Instruction::PushExclude { src } => told(6, false, src, Side::Absent),
    }
}

// A refused prefix.
fn place_refused(n: u64) -> PrefixAnswer
    ensures { result ≡ prefix_refused n }
{
    PrefixAnswer {
        refusal: n,
        prefix: Side::Absent.into(),
    }
}

// The place of a prefix.
fn place(side: Side) -> PrefixAnswer
    ensures { result ≡ prefix_accepted side }
{
    PrefixAnswer {
        refusal: 0,
        prefix: side.into(),
    }
}

// What reading answers, in numbers.
pub fn spec_answer(p: Result<RefSpec, Refusal>) -> SpecAnswer
    ensures { result ≡ spec_answer p }
{
    match p {
        Ok(r) => spec_accepted(r),
        Err(q) => spec_refused(q.number()),
    }
}

// What an instruction answers, in numbers.
pub fn instruction_answer(i: Result<Instruction, Refusal>) -> InstructionAnswer
    ensures { result ≡ instruction_answer i }
{
    match i {
        Ok(i) => told_instruction(i),
        Err(q) => told_refused(q.number()),
    }
}

// What a prefix answers, in numbers.
pub fn prefix_answer(p: Result<Side, Refusal>) -> PrefixAnswer
    ensures { result ≡ prefix_answer p }
{
    match p {
        Ok(side) => place(side),
        Err(q) => place_refused(q.number()),
    }
}
