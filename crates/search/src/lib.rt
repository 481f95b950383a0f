//! The hits of a listing: the pairs of a spec and a name that give a row, searched for and noted once, and their rows written.
#![tactic(auto)]

pub mod found;
pub mod listing;
pub mod put;
pub mod scope;
