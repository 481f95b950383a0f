// Nothing runs here: this crate is its specs/.
#![tactic(auto)]
