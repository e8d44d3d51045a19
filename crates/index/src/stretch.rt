// A stretch of a row's columns, and its halves.
ghost use Rattle.std.specs.Prelude.{◌≡◌, ◌+◌, ◌-◌, ◌/◌, ◌≤◌};
ghost use Rattle.definitions.specs.Limits.{row_places};

// `count` columns from `start` on. The place `at` where its index begins stands beside it: with the place in the struct, which is then handed over in memory, a question took more than
// twice as long.
#[derive(Clone, Copy)]
pub(crate) struct Stretch {
    pub(crate) start: usize,
    pub(crate) count: usize,
    ghost some: { 1 ≤ count },
    ghost inside: { start + count ≤ row_places },
}

impl Stretch {
    // The column behind the last one.
    pub(crate) fn end(self) -> usize
        ensures { result ≡ self.start + self.count }
    {
        self.start + self.count
    }

    // Its places follow that of the whole.
    pub(crate) fn first_half(self) -> Stretch
        requires { 2 ≤ self.count }
        ensures start { result.start ≡ self.start }
        ensures count { result.count ≡ self.count / 2 }
    {
        Stretch {
            start: self.start,
            count: self.count / 2,
        }
    }

    // Its places follow those of the first half, which has one fewer than it has columns.
    pub(crate) fn second_half(self) -> Stretch
        requires { 2 ≤ self.count }
        ensures start { result.start ≡ self.start + self.count / 2 }
        ensures count { result.count ≡ self.count - self.count / 2 }
    {
        let half = self.count / 2;
        Stretch {
            start: self.start + half,
            count: self.count - half,
        }
    }
}
