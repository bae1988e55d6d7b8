use crate::addressed::Addressed;
use crate::ends::Ends;
use crate::making::join_port;
use crate::port::Port;
use crate::ring_ends::RingEnds;
use crate::taking::{find, take_at};
use crate::tray_ends::TrayEnds;
use np_syntax::Memory;
use std::alloc::Global;

/// A port that has ends for each site, in order. `next` is the site from which the next look for an item begins.
pub struct PortOf<E> {
    pub(crate) site: u32,
    pub(crate) ends: Vec<E>,
    pub(crate) next: usize,
}

impl<E: Drop> Drop for PortOf<E> {
    fn drop(self) {
        let PortOf {
            site: _,
            ends: _,
            next: _,
        } = self;
    }
}

/// A port with a ring for each ordered pair of sites, which carries items while the ports are used.
pub type Rings<I> = PortOf<RingEnds<I>>;

/// A port whose items stand in lists, which are handed over where it is settled.
pub type Tray<I> = PortOf<TrayEnds<I>>;

impl<R, I: Addressed, E: Ends<I> + Send> Port<R, I> for PortOf<E> {
    ghost use Rattle.std.specs.Prelude.{◌≡◌, ◌≢◌, ℕ, ◌+◌, ◌-◌, ◌<◌, ◌≤◌, List, [], ◌∷◌, ◌++◌, length, slice_get, IfOk, IfErr, OnOk, Some};
    ghost use Rattle.std.specs.Prelude.{MatchOption};
    ghost use Rattle.site_links.specs.Seats.{site_of, among_of, sent_at, got_at, known_at, room_at, Linked};

    ghost site = { site_of };

    ghost among = { among_of };

    ghost sent = { sent_at E.Ends };

    ghost got = { got_at E.Ends };

    ghost known = { known_at E.Ends };

    ghost room = { room_at E.Ends };

    ghost linked = { Linked E.Ends };

    fn is_live() -> bool {
        E::is_live()
    }

    fn make(alloc: Global, sites: u32) -> Result<Vec<Self>, Memory> {
        let mut ports = Vec::new(alloc);
        for number in 0..sites {
            join_port(alloc, &mut ports, number)?;
        }
        Ok(ports)
    }

    fn put(&mut self, _rt: &R, to: u32, item: I) -> Result<(), I> {
        self.ends[to as usize].put(item)
    }

    fn take(&mut self, _rt: &R) -> Option<I> {
        let count = self.ends.len();
        let start = if self.next < count { self.next } else { 0 };
        self.next = start + 1;
        if let Some(from) = find(self, start, count) {
            return take_at(self, from);
        }
        if let Some(from) = find(self, 0, start) {
            return take_at(self, from);
        }
        None
    }

    fn take_from(&mut self, _rt: &R, from: u32) -> Option<I> {
        let from = from as usize;
        match find(self, from, from + 1) {
            Some(site) => take_at(self, site),
            None => None,
        }
    }

    fn settle(&mut self, _rt: &R, to: &mut Self) -> usize {
        let out = &mut self.ends[to.site as usize];
        out.settle(&mut to.ends[self.site as usize])
    }

    fn settle_own(&mut self, _rt: &R) -> usize {
        self.ends[self.site as usize].settle_own()
    }
}
