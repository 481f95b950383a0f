// Nothing runs here: this crate states what the definitions of `meaning` promise, in specs/, and proves it, in proofs/.
#![tactic(auto)]
