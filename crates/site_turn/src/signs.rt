//! What sites see of each other within a round. All of it are hints: no clause knows what an atomic has in it.

use crate::mail::{Mail, WORD};
use np_syntax::Memory;
use std::alloc::Global;
use std::sync::atomic::{AtomicBool, AtomicU32, AtomicU64, Ordering};
use std::thread::yield_now;

/// What is seen of one site: which senders have put something for it, a bit for each, and whether it looks for something to come.
#[derive(Drop)]
struct Sign {
    low: AtomicU64,
    high: AtomicU64,
    looks: AtomicBool,
}

/// What is seen of all sites, and how many of them are at work.
#[derive(Drop)]
pub struct Signs {
    sites: Vec<Sign>,
    count: u32,
    busy: AtomicU32,
}

impl Signs {
    /// Of so many sites, of which none has begun.
    pub fn new(alloc: Global, sites: u32) -> Result<Signs, Memory> {
        let mut all = Vec::with_capacity(alloc, sites as usize)?;
        for _ in 0..sites {
            all.push(Sign {
                low: AtomicU64::new(0),
                high: AtomicU64::new(0),
                looks: AtomicBool::new(false),
            })?;
        }
        Ok(Signs {
            sites: all,
            count: sites,
            busy: AtomicU32::new(0),
        })
    }

    /// All sites are at work.
    pub fn begin(&self) {
        self.busy.store(self.count, Ordering::SeqCst);
    }

    /// A site has put something for another. Where that one looks it is at work again, before it has seen anything.
    pub fn tell(&self, from: u32, to: u32) {
        let Some(sign) = self.sites.get(to as usize) else {
            return;
        };
        sign.tell(from);
        self.wake(sign);
    }

    /// A site that looks does so no longer, and is at work.
    fn wake(&self, sign: &Sign) {
        if sign.looks.load(Ordering::SeqCst) && sign.looks.swap(false, Ordering::SeqCst) {
            let _ = self.busy.fetch_add(1, Ordering::SeqCst);
        }
    }

    /// Adds the senders that have put something for a site to its mail.
    pub fn collect(&self, site: u32, mail: &mut Mail) {
        let Some(sign) = self.sites.get(site as usize) else {
            return;
        };
        mail.add(taken(&sign.low), taken(&sign.high));
    }

    /// A site looks, and lets others run. False where none is at work.
    pub fn pause(&self, site: u32) -> bool {
        let Some(sign) = self.sites.get(site as usize) else {
            return false;
        };
        if !sign.looks.load(Ordering::SeqCst) && !self.rest(sign) {
            return true;
        }
        if self.busy.load(Ordering::SeqCst) == 0 {
            return false;
        }
        yield_now();
        true
    }

    /// A site marks that it looks, and is at work no longer. Who told it of something either sees the mark, and counts it again, or told
    /// it before that, and then the site sees so itself and stays at work: false.
    fn rest(&self, sign: &Sign) -> bool {
        sign.looks.store(true, Ordering::SeqCst);
        let told = sign.is_told();
        if !told || !sign.looks.swap(false, Ordering::SeqCst) {
            let _ = self.busy.fetch_sub(1, Ordering::SeqCst);
        }
        !told
    }

    /// A site that has found something is at work again.
    pub fn rise_if(&self, site: u32, found: bool) {
        if !found {
            return;
        }
        if let Some(sign) = self.sites.get(site as usize) {
            self.wake(sign);
        }
    }

    /// The turn of a site ends.
    pub fn end(&self, site: u32) {
        let Some(sign) = self.sites.get(site as usize) else {
            return;
        };
        if !sign.looks.swap(false, Ordering::SeqCst) {
            let _ = self.busy.fetch_sub(1, Ordering::SeqCst);
        }
    }
}

impl Sign {
    /// Whether a sender has put something since the site collected last.
    fn is_told(&self) -> bool {
        self.low.load(Ordering::SeqCst) != 0 || self.high.load(Ordering::SeqCst) != 0
    }

    /// A sender has put something. Where its bit is set already it is only read.
    fn tell(&self, from: u32) {
        if from < WORD {
            set(&self.low, 1 << from);
        } else if from - WORD < WORD {
            set(&self.high, 1 << (from - WORD));
        }
    }
}

/// Sets a bit of a word.
fn set(word: &AtomicU64, bit: u64) {
    if word.load(Ordering::SeqCst) & bit == 0 {
        let _ = word.fetch_or(bit, Ordering::SeqCst);
    }
}

/// The bits of a word, which has none then.
fn taken(word: &AtomicU64) -> u64 {
    if word.load(Ordering::SeqCst) == 0 {
        return 0;
    }
    word.swap(0, Ordering::SeqCst)
}
