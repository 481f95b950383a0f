//! Places of rows in one byte list, ordered by a key that stands in the list: a stable merge sort, runs of one key, and the first place of
//! each key.
#![tactic(auto)]

pub mod run;
pub mod sort;
