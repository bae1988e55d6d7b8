ghost use Rattle.std.specs.Prelude.{◌≡◌, ◌≢◌, ℕ, ◌+◌, ◌-◌, ◌<◌, ◌≤◌, List, [], ◌∷◌, ◌++◌, length, slice_get, IfOk, IfErr, OnOk, Some};
ghost use Rattle.std.specs.Prelude.{MatchOption};
ghost use Rattle.site_links.specs.Words.{Keeps, KeepsBut, Takes, only_at, IsFullMake, IsUnused};

use crate::addressed::Addressed;
use crate::places::PLACES;
use np_syntax::{MOST_SITES, Memory};
use std::alloc::Global;

/// The port of one site: its ends of the links with all sites, its own among them. Two ports of one `make` may be used by
/// two threads. No call but `make` takes memory, and where `R` has nothing to wait with, no call waits.
pub trait Port<R, I: Addressed>: Sized + Send + Drop {
    /// The number of the port's site.
    ghost site: { Self → ℕ };
    /// How many sites its `make` had.
    ghost among: { Self → ℕ };
    /// The items put for a site, oldest first.
    ghost sent: { Self → ℕ → List I };
    /// The items taken from a site, oldest first.
    ghost got: { Self → ℕ → List I };
    /// The items known to be waiting from a site: the next that are taken from it.
    ghost known: { Self → ℕ → List I };
    /// The number of places known to be free for a site.
    ghost room: { Self → ℕ → ℕ };
    /// The two ports are of one `make`: the link from the first's site leads to the second's.
    ghost linked: { Self → Self → Type 0 };

    /// Whether what is put on a link may be taken from it before it is settled. It is a hint.
    fn is_live() -> bool;

    /// A port for each site, in order.
    fn make(alloc: Global, sites: u32) -> Result<Vec<Self>, Memory>
        requires { (1 ≤ sites) × (sites ≤ MOST_SITES) }
        ensures ports { IfOk result (λ ports. IsFullMake site among linked sites ports.items) }
        ensures unused { IfOk result (λ ports. (i : ℕ) (port : Self) → slice_get ports.items i ≡ Some port
            → IsUnused sites (sent port) (got port) (known port) (room port)) };

    /// Puts an item for a site, or gives it back where no place was known to be free.
    fn put(&mut self, rt: &R, to: u32, item: I) -> Result<(), I>
        requires site { to < among self.old }
        requires address { (I.receiver item ≡ to) × (I.sender item ≡ site self.old) }
        ensures keeps { Keeps site among linked self.old self.new }
        ensures taking { (k : ℕ) → (got self.new k ≡ got self.old k) × (known self.new k ≡ known self.old k) }
        ensures room { (k : ℕ) → room self.old k ≤ room self.new k + length (only_at k to item) }
        ensures ok { OnOk result ((k : ℕ) → sent self.new k ≡ sent self.old k ++ only_at k to item) }
        ensures err { IfErr result (λ back. (back ≡ item) × (room self.old to ≡ 0)
            × ((k : ℕ) → (sent self.new k ≡ sent self.old k) × (room self.new k ≡ room self.old k))) };

    /// Takes an item, if one is there, from some site: it is the first that was known to wait from there, if any was. That this
    /// site is the item's sender is told by the next `settle` and by no call before it, since no contract says what one thread
    /// sees of another: then what was taken from a site is a beginning of what that site put, and `put` takes only items of its
    /// own site.
    fn take(&mut self, rt: &R) -> Option<I>
        ensures keeps { Keeps site among linked self.old self.new }
        ensures putting { (k : ℕ) → (sent self.new k ≡ sent self.old k) × (room self.new k ≡ room self.old k) }
        ensures taken { MatchOption result ((k : ℕ) → (got self.new k ≡ got self.old k) × (known self.old k ≡ []))
            (λ item. (from : ℕ) × (from < among self.old)
            × Takes (got self.old) (known self.old) (got self.new) (known self.new) from item) };

    /// Takes an item, if one is there from this site; a port that has one place for what comes from all takes from there. That it
    /// takes none tells nothing of what was known to wait.
    fn take_from(&mut self, rt: &R, from: u32) -> Option<I>
        requires { from < among self.old }
        ensures keeps { Keeps site among linked self.old self.new }
        ensures putting { (k : ℕ) → (sent self.new k ≡ sent self.old k) × (room self.new k ≡ room self.old k) }
        ensures taken { MatchOption result ((k : ℕ) → got self.new k ≡ got self.old k)
            (λ item. (from : ℕ) × (from < among self.old)
            × Takes (got self.old) (known self.old) (got self.new) (known self.new) from item) };

    /// Settles the link from this port to another, and tells how many items wait on it. What was put and not yet taken is
    /// known then.
    fn settle(&mut self, rt: &R, to: &mut Self) -> usize
        requires { ∥ linked self.old to.old ∥₁ }
        ensures keeps { KeepsBut site among linked (site to.old) self.old self.new
            × KeepsBut site among linked (site self.old) to.old to.new }
        ensures between { (linked self.old to.old → linked self.new to.new) × (linked to.old self.old → linked to.new self.new) }
        ensures sent { (k : ℕ) → (sent self.new k ≡ sent self.old k) × (sent to.new k ≡ sent to.old k) }
        ensures got { (k : ℕ) → (got self.new k ≡ got self.old k) × (got to.new k ≡ got to.old k) }
        ensures known { (k : ℕ) → (known self.new k ≡ known self.old k) × (k ≢ site self.old → known to.new k ≡ known to.old k) }
        ensures room { (k : ℕ) → (k ≢ site to.old → room self.new k ≡ room self.old k) × (room to.new k ≡ room to.old k) }
        ensures settled { got to.new (site self.old) ++ known to.new (site self.old) ≡ sent self.new (site to.old) }
        ensures free { room self.new (site to.old) ≡ PLACES - length (known to.new (site self.old)) }
        ensures waiting { result ≡ length (known to.new (site self.old)) };

    /// Settles the link from the port's site to itself, and tells how many items wait on it.
    fn settle_own(&mut self, rt: &R) -> usize
        requires { ∥ linked self.old self.old ∥₁ }
        ensures keeps { KeepsBut site among linked (site self.old) self.old self.new }
        ensures own { linked self.old self.old → linked self.new self.new }
        ensures same { (k : ℕ) → (sent self.new k ≡ sent self.old k) × (got self.new k ≡ got self.old k) }
        ensures others { (k : ℕ) → k ≢ site self.old → (known self.new k ≡ known self.old k) × (room self.new k ≡ room self.old k) }
        ensures settled { got self.new (site self.old) ++ known self.new (site self.old) ≡ sent self.new (site self.old) }
        ensures free { room self.new (site self.old) ≡ PLACES - length (known self.new (site self.old)) }
        ensures waiting { result ≡ length (known self.new (site self.old)) };
}
