// What a listing goes over, handed on by value.

// How many specs of a table a listing goes over, how many names of an item list, and how many negatives.
#[derive(Clone, Copy)]
pub struct Scope {
    pub specs: usize,
    pub names: usize,
    pub negatives: usize,
}

// The turn of one spec, and the place after what came before: in a table of hits, or in a buffer.
#[derive(Clone, Copy)]
pub struct Turn {
    pub scope: Scope,
    pub spec: usize,
    pub at: usize,
}
