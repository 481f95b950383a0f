// One refspec: what it instructs, its prefix, and the text of a side. Port of the crate's instruction.rs and spec.rs.
#![tactic(auto)]

pub mod instruction;
pub mod side;
pub mod spec;
