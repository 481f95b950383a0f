// What a spec tells a fetch or a push to do, with its sides as places. Port of the crate's instruction.rs.
use parse::types::Side;

// The seven instructions. `allow_non_fast_forward` is set by a `+`.
#[derive(Clone, Copy)]
pub enum Instruction {
    // Fetch the source without updating a local reference.
    FetchOnly {
        src: Side,
    },
    // Exclude the source.
    FetchExclude {
        src: Side,
    },
    // Fetch the source and update the destination.
    FetchAndUpdate {
        src: Side,
        dst: Side,
        allow_non_fast_forward: bool,
    },
    // Push all branches that the remote has under the same name.
    PushAllMatchingBranches {
        allow_non_fast_forward: bool,
    },
    // Delete the destination.
    PushDelete {
        ref_or_pattern: Side,
    },
    // Push the source to the destination.
    PushMatching {
        src: Side,
        dst: Side,
        allow_non_fast_forward: bool,
    },
    // Exclude the source.
    PushExclude {
        src: Side,
    },
}
