//! A counter of package checks, which a contract sees as a number.
ghost use Rattle.std.specs.Prelude.{◌≡◌, ◌+◌, ◌-◌, ◌^◌, ◌<◌, min};

use std::marker::Model;

/// How many packages were checked. It stands still at 18446744073709551615. It isn't droppable:
/// a counter that was split off is merged or ended.
pub struct Steps<L> {
    owner: L,
    count: u64,
}

impl<L> Model for Steps<L> {
    ghost use Rattle.std.specs.Prelude.{ℕ};
    ghost use Rattle.std.specs.Coded.{coded_ℕ};

    ghost Value = { ℕ };

    ghost coded = { coded_ℕ };

    ghost view = { λ s. s.count };
}

impl<L: Copy> Steps<L> {
    /// A counter at 0 that belongs to `owner`.
    pub fn new(owner: L) -> Steps<L>
        ensures { result ≡ 0 }
    {
        Steps { owner, count: 0 }
    }

    /// One more.
    pub fn tick(&mut self)
        ensures { self.new ≡ min (self.old + 1) (2 ^ 64 - 1) }
    {
        self.count = self.count.saturating_add(1);
    }

    /// How many so far.
    pub fn count(&self) -> u64
        ensures { result ≡ self.now }
    {
        self.count
    }

    /// Its owner, by which a thread makes a counter of its own.
    pub fn owner(&self) -> L {
        self.owner
    }

    /// A new counter at 0 of the same owner. This one stays as it is.
    pub fn split(&mut self) -> Steps<L>
        ensures apart { result ≡ 0 }
        ensures same { self.new ≡ self.old }
    {
        Steps {
            owner: self.owner,
            count: 0,
        }
    }

    /// Adds what the other counted, and gives the other up.
    pub fn merge(&mut self, other: Steps<L>)
        ensures { self.new ≡ min (self.old + other) (2 ^ 64 - 1) }
    {
        let Steps { owner: _, count } = other;
        self.count = self.count.saturating_add(count);
    }

    /// The number, and gives the counter up.
    pub fn end(self) -> u64
        ensures { result ≡ self }
    {
        let Steps { owner: _, count } = self;
        count
    }
}
