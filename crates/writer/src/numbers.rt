// The numbers of a record in the order in which they are written, in memory of a fixed size: r, two counts, two for each of 64 releases and four for each
// of 15 entries at most. Contracts see the list of the numbers. It is a list of our own, since a library's would be one more thing to believe.
ghost use Rattle.std.specs.Prelude.{◌≡◌, ℕ, List, [], ◌∷◌, ◌++◌, ◌≤◌, ◌<◌, length, take};

use std::marker::Model;

#[derive(Drop)]
pub(crate) struct Numbers {
    list: [u64; 191],
    count: usize,
}

impl Model for Numbers {
    ghost Value = { List ℕ };

    ghost view = { λ n. take n.count n.list };

    ghost invariant = { λ n. n.count ≤ 191 };
}

impl Numbers {
    pub(crate) fn new() -> Self
        ensures { result ≡ [] }
    {
        Numbers {
            list: [0; 191],
            count: 0,
        }
    }

    pub(crate) fn push(&mut self, x: u64)
        requires { length self.old < 191 }
        ensures { self.new ≡ self.old ++ x ∷ [] }
    {
        self.list[self.count] = x;
        self.count += 1;
    }

    pub(crate) fn as_slice(&self) -> &[u64]
        ensures value { result.now ≡ self.now }
        ensures few { length result.now ≤ 191 }
    {
        &self.list[..self.count]
    }
}
