//! Which entry a number picks.

ghost use Rattle.std.specs.Prelude.{◌≡◌, List, length, slice_get};
ghost use Rattle.choice_entries.specs.declared.entry.Entry.{Entry};
ghost use Rattle.choice_entries.specs.Picks.{pick};

use super::entry::Entry;

/// A list of entries, which gives the entry at each place.
pub trait Entries {
    /// The entries, in order.
    ghost listed: { Self → List Entry };

    fn count(&self) -> usize
        ensures { result ≡ length (listed self.now) };

    fn entry_at(&self, place: usize) -> Option<Entry>
        ensures { result ≡ slice_get (listed self.now) place };
}

/// The entry at which a number stops that counts round and round.
pub fn pick<L: Entries>(list: &L, number: u32) -> Option<Entry>
    ensures { result ≡ pick (L.listed list.now) number }
{
    let count = list.count();
    if count == 0 {
        return None;
    }
    list.entry_at(number as usize % count)
}
