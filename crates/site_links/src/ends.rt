ghost use Rattle.std.specs.Prelude.{◌≡◌, ℕ, ◌-◌, List, [], ◌∷◌, ◌++◌, length, IfOk, IfErr, IsTrue, OnOk, MatchOption, ◌↔◌};
ghost use Rattle.site_links.specs.Words.{Stays, Begins, IsFresh};

use crate::places::PLACES;
use np_syntax::Memory;
use std::alloc::Global;

/// What one site has of its links with another: the end that puts into the link to it, and the end that takes from the link
/// from it. Only `apart` and `own` take memory, and no call waits.
pub trait Ends<I>: Sized + Drop {
    /// The items put, oldest first.
    ghost sent: { Self → List I };
    /// The items taken, oldest first.
    ghost got: { Self → List I };
    /// The items known to be waiting: the next that are taken.
    ghost known: { Self → List I };
    /// The number of places known to be free.
    ghost room: { Self → ℕ };
    /// What is put at the first is taken at the second.
    ghost meets: { Self → Self → Type 0 };

    /// Whether what is put may be taken before the link is settled. It is a hint.
    fn is_live() -> bool;

    /// The ends of the two links between two sites.
    fn apart(alloc: Global) -> Result<(Self, Self), Memory>
        ensures fresh { IfOk result (λ made. IsFresh sent got known room made.0 × IsFresh sent got known room made.1) }
        ensures meet { IfOk result (λ made. meets made.0 made.1 × meets made.1 made.0) };

    /// The ends of the link from a site to itself.
    fn own(alloc: Global) -> Result<Self, Memory>
        ensures fresh { IfOk result (λ made. IsFresh sent got known room made) }
        ensures meet { IfOk result (λ made. meets made made) };

    /// Puts an item, or gives it back where no place was known to be free.
    fn put(&mut self, item: I) -> Result<(), I>
        ensures stays { Stays meets self.old self.new }
        ensures taking { (got self.new ≡ got self.old) × (known self.new ≡ known self.old) }
        ensures room { room self.new ≡ room self.old - 1 }
        ensures ok { OnOk result (sent self.new ≡ sent self.old ++ item ∷ []) }
        ensures err { IfErr result (λ back. (back ≡ item) × (sent self.new ≡ sent self.old) × (room self.old ≡ 0)) };

    /// Whether no item is there.
    fn is_empty(&mut self) -> bool
        ensures stays { Stays meets self.old self.new }
        ensures putting { (sent self.new ≡ sent self.old) × (room self.new ≡ room self.old) }
        ensures taking { (got self.new ≡ got self.old) × Begins (known self.new) (known self.old) }
        ensures empty { IsTrue result ↔ (known self.new ≡ []) };

    /// Takes an item, if one is there.
    fn take(&mut self) -> Option<I>
        ensures stays { Stays meets self.old self.new }
        ensures putting { (sent self.new ≡ sent self.old) × (room self.new ≡ room self.old) }
        ensures taken { MatchOption result ((got self.new ≡ got self.old) × (known self.old ≡ []) × (known self.new ≡ []))
            (λ item. (got self.new ≡ got self.old ++ item ∷ []) × Begins (item ∷ known self.new) (known self.old)) };

    /// Settles the link from these ends to others, and tells how many items wait on it.
    fn settle(&mut self, to: &mut Self) -> usize
        requires { ∥ meets self.old to.old ∥₁ }
        ensures stays { (meets self.old to.old → meets self.new to.new) × (meets to.old self.old → meets to.new self.new) }
        ensures from { (sent self.new ≡ sent self.old) × (got self.new ≡ got self.old) × (known self.new ≡ known self.old) }
        ensures to { (sent to.new ≡ sent to.old) × (got to.new ≡ got to.old) × (room to.new ≡ room to.old) }
        ensures settled { got to.new ++ known to.new ≡ sent self.new }
        ensures free { room self.new ≡ PLACES - length (known to.new) }
        ensures waiting { result ≡ length (known to.new) };

    /// Settles the link from these ends to themselves, and tells how many items wait on it.
    fn settle_own(&mut self) -> usize
        requires { ∥ meets self.old self.old ∥₁ }
        ensures stays { meets self.old self.old → meets self.new self.new }
        ensures same { (sent self.new ≡ sent self.old) × (got self.new ≡ got self.old) }
        ensures settled { got self.new ++ known self.new ≡ sent self.new }
        ensures free { room self.new ≡ PLACES - length (known self.new) }
        ensures waiting { result ≡ length (known self.new) };
}
