//! Which lines may have items, as bits.
ghost use Rattle.std.specs.Prelude.{ℕ, ◌≡◌, ◌≤◌, ◌<◌};
ghost use Rattle.np_syntax.specs.declared.limits.TheConstants.{MOST_SITES};
ghost use Rattle.site_state.specs.Lines.{IsLowest, IsMarked, IsStruck, IsUnmarked};

use np_syntax::MOST_SITES;
use std::marker::Model;

/// A set of sites: a bit for each that a program may have. A greater number is always in it.
#[derive(Drop)]
pub struct Marks {
    bits: u128,
}

impl Model for Marks {
    ghost use Rattle.std.specs.Prelude.{ℕ};
    ghost use Rattle.std.specs.Coded.{coded_ℕ};

    ghost Value = { ℕ };

    ghost coded = { coded_ℕ };

    ghost view = { λ marks. marks.bits };
}

/// The place of the lowest bit that is set.
fn lowest(bits: u128) -> u32
    requires { 0 < bits }
    ensures { IsLowest bits result }
{
    bits.trailing_zeros()
}

/// The place of the first bit from a place on that is set, and the place behind all where none is.
fn first_bit(bits: u128, from: u32) -> u32
    requires { from < MOST_SITES }
    ensures from { from ≤ result }
    ensures marked { IsUnmarked bits result → ⊥ }
    ensures before { (to : ℕ) → from ≤ to → to < result → IsUnmarked bits to }
{
    let rest = bits >> from;
    if rest == 0 {
        MOST_SITES
    } else {
        from + lowest(rest)
    }
}

impl Marks {
    /// No site that a program may have.
    pub fn none() -> Marks
        ensures { result ≡ 0 }
    {
        Marks { bits: 0 }
    }

    /// A site is in the set then.
    pub fn mark(&mut self, site: u32)
        ensures { IsMarked self.old site self.new }
    {
        if site < MOST_SITES {
            self.bits |= 1 << site;
        }
    }

    /// A site that a program may have is in the set no longer.
    pub fn strike(&mut self, site: u32)
        ensures { IsStruck self.old site self.new }
    {
        if site < MOST_SITES {
            self.bits &= !(1 << site);
        }
    }

    /// The first site of the set from a number on.
    pub fn first_from(&self, from: u32) -> u32
        ensures from { from ≤ result }
        ensures marked { IsUnmarked self.now result → ⊥ }
        ensures before { (to : ℕ) → from ≤ to → to < result → IsUnmarked self.now to }
    {
        if from >= MOST_SITES {
            return from;
        }
        first_bit(self.bits, from)
    }
}
