ghost use Rattle.std.specs.Prelude.{◌≡◌, ℕ, length, Some, slice_get};
ghost use Rattle.crossbeam_queue.specs.Passes.{view};
ghost use Rattle.agent_move.specs.declared.item.Item as item;
ghost use Rattle.site_inboxes.specs.Views.{number_in, sites_in};
ghost use Rattle.site_inboxes.specs.declared.ends.Outlet as outlet;

use crate::making::{seats_of, take_seats};
use crate::settling::settle_way;
use agent_move::Item;
use np_syntax::Memory;
use site_inboxes::{Inbox, Outlet};
use site_links::{Addressed, Port};
use std::alloc::Global;
use std::sync::Wait;

/// A port that has the inbox of its site, and a way into the inbox of each site, in order. The count of a way is of what the port
/// has taken from that site since the link from there was settled last.
pub struct Inboxes {
    pub(crate) site: u32,
    pub(crate) inbox: Inbox<Item>,
    pub(crate) ways: Vec<Outlet<Item>>,
    ghost numbered: { (k : ℕ) (way : outlet.Outlet item.Item) → slice_get ways.items k ≡ Some way → number_in (view way.pass) ≡ site },
    ghost reaches: { sites_in (view inbox.pass) ≡ length ways.items },
}

impl Drop for Inboxes {
    fn drop(self) {
        let Inboxes {
            site: _,
            inbox: _,
            ways: _,
        } = self;
    }
}

impl<R: Wait> Port<R, Item> for Inboxes {
    ghost use Rattle.std.specs.Prelude.{◌≡◌, ◌≢◌, ℕ, ◌+◌, ◌-◌, ◌<◌, ◌≤◌, List, [], ◌∷◌, ◌++◌, length, slice_get, IfOk, IfErr, OnOk, Some};
    ghost use Rattle.std.specs.Prelude.{MatchOption};
    ghost use Rattle.crew_inboxes.specs.Ways.{site_in, among_in, sent_for, got_from, known_from, room_for, Linked};

    ghost site = { site_in };

    ghost among = { among_in };

    ghost sent = { sent_for };

    ghost got = { got_from };

    ghost known = { known_from };

    ghost room = { room_for };

    ghost linked = { Linked };

    fn is_live() -> bool {
        true
    }

    fn make(alloc: Global, sites: u32) -> Result<Vec<Self>, Memory> {
        let seats = seats_of(alloc, sites)?;
        take_seats(alloc, seats)
    }

    fn put(&mut self, rt: &R, to: u32, item: Item) -> Result<(), Item> {
        self.ways[to as usize].put(rt, item)
    }

    fn take(&mut self, rt: &R) -> Option<Item> {
        match self.inbox.take(rt) {
            Some(item) => {
                self.ways[item.from_site() as usize].count();
                Some(item)
            }
            None => None,
        }
    }

    fn take_from(&mut self, rt: &R, _from: u32) -> Option<Item> {
        self.take(rt)
    }

    fn settle(&mut self, _rt: &R, to: &mut Self) -> usize {
        let fresh = to.ways[self.site as usize].fresh;
        let way = &mut self.ways[to.site as usize];
        let waiting = settle_way(way, &mut to.inbox, fresh);
        to.ways[self.site as usize].restart();
        waiting
    }

    fn settle_own(&mut self, _rt: &R) -> usize {
        let fresh = self.ways[self.site as usize].fresh;
        let way = &mut self.ways[self.site as usize];
        let waiting = settle_way(way, &mut self.inbox, fresh);
        way.restart();
        waiting
    }
}
