// The lines of a listing in print: each is measured, and written into a lent buffer.
#![tactic(auto)]

pub mod decimal;
pub mod line;
pub mod shown;
