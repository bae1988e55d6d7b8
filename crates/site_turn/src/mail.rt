//! From which sites something may wait.

use np_syntax::MOST_SITES;

/// How many sites have their bit in one word.
pub const WORD: u32 = 64;

/// The sites from which something may wait for a site, a bit for each, and the one from which the next is taken. It is a hint.
#[derive(Clone, Copy, PartialEq, Eq)]
pub struct Mail {
    low: u64,
    high: u64,
    next: u32,
}

/// The bits of a word from this place on.
fn from_place(word: u64, place: u32) -> u64 {
    if place < WORD {
        word & (u64::MAX << place)
    } else {
        0
    }
}

/// The bits of a word below this place.
fn below(place: u32) -> u64 {
    if place < WORD {
        !(u64::MAX << place)
    } else {
        u64::MAX
    }
}

impl Mail {
    /// From no site.
    pub fn of_none() -> Mail {
        Mail {
            low: 0,
            high: 0,
            next: 0,
        }
    }

    /// From each of so many sites.
    pub fn of_all(sites: u32) -> Mail {
        Mail {
            low: below(sites),
            high: below(sites.saturating_sub(WORD)),
            next: 0,
        }
    }

    /// From those in these words too.
    pub fn add(&mut self, low: u64, high: u64) {
        self.low |= low;
        self.high |= high;
    }

    /// From this one too.
    fn note(&mut self, site: u32) {
        if site < WORD {
            self.low |= 1 << site;
        } else if site < MOST_SITES {
            self.high |= 1 << (site - WORD);
        }
    }

    /// From this one too, where some of its items wait.
    pub fn note_some(&mut self, site: u32, waiting: usize) {
        if waiting > 0 {
            self.note(site);
        }
    }

    /// Not from this one.
    pub fn strike(&mut self, site: u32) {
        if site < WORD {
            self.low &= !(1 << site);
        } else if site < MOST_SITES {
            self.high &= !(1 << (site - WORD));
        }
    }

    /// The next site, in a circle.
    pub fn first(&mut self) -> Option<u32> {
        if self.low == 0 && self.high == 0 {
            return None;
        }
        let found = self.first_from(self.next).or(self.first_from(0));
        if let Some(site) = found {
            self.next = site.saturating_add(1);
        }
        found
    }

    fn first_from(&self, place: u32) -> Option<u32> {
        let low = from_place(self.low, place);
        if low != 0 {
            return Some(low.trailing_zeros());
        }
        let high = from_place(self.high, place.saturating_sub(WORD));
        if high != 0 {
            return Some(WORD.saturating_add(high.trailing_zeros()));
        }
        None
    }
}
