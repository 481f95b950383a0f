//! What stands at a place of a row list, and the keys by which places are ordered. A place is where a row begins.
#![tactic(auto)]

pub mod fields;
pub mod key;
