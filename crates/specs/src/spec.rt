// The spec that a line holds.
use text_lists::line::{Line, classify};

// A spec and its operation, as document 01 numbers it.
#[derive(Clone, Copy)]
pub(crate) struct Spec<'a> {
    pub op: u64,
    pub text: &'a [u8],
}

impl<'a> Spec<'a> {
    // The spec on a line, if it holds one.
    pub(crate) fn on(line: &'a [u8]) -> Option<Spec<'a>> {
        match classify(line) {
            Line::Fetch(start) => Some(Spec {
                op: 0,
                text: &line[start..],
            }),
            Line::Push(start) => Some(Spec {
                op: 1,
                text: &line[start..],
            }),
            _ => None,
        }
    }
}
