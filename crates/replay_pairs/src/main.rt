// Replays the recorded reports on two specs, which standard input brings, and says how many of them are ours.
#![tactic(auto)]

use replaying::{Pairs, replay};

// As it is: (d) each program has a main of its own.
fn main(rt: HostRuntime) {
    replay(&mut rt.stdin(), &mut rt.stdout(), &Pairs);
}
