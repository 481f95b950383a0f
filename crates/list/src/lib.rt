//! Byte lists: a cursor over their records, and reading item lists.
#![tactic(auto)]

pub mod cursor;
pub mod items;
pub mod places;
pub mod refused;
pub mod stretch;
