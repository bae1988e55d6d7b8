ghost use Rattle.std.specs.Prelude.{◌≡◌, ◌<◌, ◌+◌, ◌^◌, max};

use std::marker::Model;

/// The clock of a site, which contracts see as a number. No call takes memory.
#[derive(Drop)]
pub struct Clock {
    stamp: u64,
}

impl Model for Clock {
    ghost use Rattle.std.specs.Prelude.{ℕ};
    ghost use Rattle.std.specs.Coded.{coded_ℕ};

    ghost Value = { ℕ };

    ghost coded = { coded_ℕ };

    ghost view = { λ clock. clock.stamp };
}

impl Clock {
    pub fn new() -> Clock
        ensures { result ≡ 0 }
    {
        Clock { stamp: 0 }
    }

    /// A clock that stands at a stamp.
    pub fn at(stamp: u64) -> Clock
        ensures { result ≡ stamp }
    {
        Clock { stamp }
    }

    /// At which stamp the clock stands.
    pub fn stamp(&self) -> u64
        ensures { result ≡ self.now }
    {
        self.stamp
    }

    /// The clock is at no less than this stamp then.
    pub fn raise(&mut self, stamp: u64)
        ensures { self.new ≡ max self.old stamp }
    {
        self.stamp = self.stamp.max(stamp);
    }

    /// The stamp of an event that the site makes by itself, which the clock is then.
    pub fn tick(&mut self) -> u64
        requires { self.old + 1 < 2 ^ 64 }
        ensures stamp { result ≡ self.old + 1 }
        ensures clock { self.new ≡ result }
    {
        self.stamp += 1;
        self.stamp
    }

    /// The stamp of an event that takes what was put on its way with this stamp, which the clock is then.
    pub fn meet(&mut self, stamp: u64) -> u64
        requires { max self.old stamp + 1 < 2 ^ 64 }
        ensures stamp { result ≡ max self.old stamp + 1 }
        ensures clock { self.new ≡ result }
    {
        self.stamp = self.stamp.max(stamp) + 1;
        self.stamp
    }
}
