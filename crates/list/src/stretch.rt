// Where bytes stand in a list.
ghost use Rattle.std.specs.Prelude.{◌≡◌, ◌+◌, ◌≤◌, length};
ghost use Rattle.parse.specs.Places.{part_at};

// The place of so many bytes of a list.
#[derive(Clone, Copy, Debug, PartialEq, Eq)]
pub struct Stretch {
    pub at: usize,
    pub len: usize,
}

impl Stretch {
    // These bytes of a list.
    pub fn of(self, list: &[u8]) -> &[u8]
        requires { self.at + self.len ≤ length list.now }
        ensures { result.now ≡ part_at list.now self.at self.len }
    {
        &list[self.at..self.at + self.len]
    }
}
