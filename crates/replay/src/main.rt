// Replays the recorded answers of gix-refspec to specs, which standard input brings, and says how many differ from ours.
#![tactic(auto)]

use replaying::{Specs, replay};

// As it is: (d) each program has a main of its own.
fn main(rt: HostRuntime) {
    replay(&mut rt.stdin(), &mut rt.stdout(), &Specs);
}
