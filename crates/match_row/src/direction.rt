// The two listings: a name is the source of its rows, or their destination.
ghost use Rattle.std.specs.Prelude.{◌≡◌, Bool, true, false, Some, ◌≤◌};
ghost use Rattle.meaning.specs.Limits.{name_bytes};
ghost use Rattle.match_row.specs.Pairs.{made_in};
ghost use Rattle.match_row.specs.Asking.{MatcherReady, EndsTold, NameTold};

use glob::Captured;
use match_one::{
    forward_hit, forward_made, known_forward, known_reverse, reverse_hit, reverse_made,
};
use matcher::types::{Ends, Matcher};

// What a spec makes of a name.
pub trait Direction {
    ghost back: { Bool };

    // What it catches of the name, if it matches.
    fn hit(specs: &[u8], m: Matcher, name: &[u8]) -> Option<Captured>
        requires { MatcherReady specs.now m }
        ensures { EndsTold back specs.now name.now m (made_in back m result) };

    // The ends of the row of a name of which this was caught.
    fn made(specs: &[u8], m: Matcher, c: Captured) -> Ends
        requires { MatcherReady specs.now m }
        ensures { Some result ≡ made_in back m (Some c) };

    // The ends of the row of a name of n bytes, which is known to have one.
    fn known_ends(specs: &[u8], m: Matcher, n: usize) -> Option<Ends>
        requires { MatcherReady specs.now m × (n ≤ name_bytes) }
        ensures { NameTold back specs.now m n result };
}

// The name is the source.
pub struct Forward;

// The name is the destination.
pub struct Reverse;

impl Direction for Forward {
    ghost back = { false };

    fn hit(specs: &[u8], m: Matcher, name: &[u8]) -> Option<Captured> {
        forward_hit(specs, m, name)
    }

    fn made(specs: &[u8], m: Matcher, c: Captured) -> Ends {
        forward_made(specs, m, c)
    }

    fn known_ends(specs: &[u8], m: Matcher, n: usize) -> Option<Ends> {
        known_forward(specs, m, n)
    }
}

impl Direction for Reverse {
    ghost back = { true };

    fn hit(specs: &[u8], m: Matcher, name: &[u8]) -> Option<Captured> {
        reverse_hit(specs, m, name)
    }

    fn made(specs: &[u8], m: Matcher, c: Captured) -> Ends {
        reverse_made(specs, m, c)
    }

    fn known_ends(specs: &[u8], m: Matcher, n: usize) -> Option<Ends> {
        known_reverse(specs, m, n)
    }
}
