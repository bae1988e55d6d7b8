//! What a site has of the inboxes: its own, and the ways into all.
ghost use Rattle.std.specs.Prelude.{◌≡◌, ◌+◌, ◌*◌, true, length};
ghost use Rattle.std.specs.Arc.{arc_value};
ghost use Rattle.crossbeam_queue.specs.Passes.{view, IsPassOf, ruled_capacity};
ghost use Rattle.site_links.specs.declared.places.TheConstants.{PLACES};
ghost use Rattle.np_inbox_rule.specs.Steps.{sent_in, last_in};
ghost use Rattle.site_inboxes.specs.Views.{is_owner, is_sender, sites_in};

use crossbeam_queue::{Pass, RuledArrayQueue};
use np_inbox_rule::{InboxRule, View};
use site_links::{Addressed, PLACES};
use std::alloc::Global;
use std::sync::Arc;

/// The queue of a site, under the rule of an inbox.
pub type Queue<I> = RuledArrayQueue<I, View<I>, InboxRule>;

/// The queue of a site, with the owner's pass.
pub struct Inbox<I: Addressed> {
    pub queue: Arc<Queue<I>, Global>,
    pub pass: Pass<I, View<I>>,
    ghost tied: { IsPassOf (arc_value queue) pass },
    ghost role: { is_owner (view pass) ≡ true },
    ghost size: { ruled_capacity (arc_value queue) ≡ sites_in (view pass) * PLACES },
}

impl<I: Addressed + Drop> Drop for Inbox<I> {
    fn drop(self) {
        let Inbox { queue: _, pass: _ } = self;
    }
}

/// The way from one site to another: the queue of the other with a sender's pass, and how many places are known to be free. `fresh`
/// counts what the one site has taken from the other since the link from there was settled last. `has_put` tells whether anything was
/// put since the way was settled with nothing on it.
pub struct Outlet<I: Addressed> {
    pub queue: Arc<Queue<I>, Global>,
    pub pass: Pass<I, View<I>>,
    pub spare: u32,
    pub fresh: u32,
    pub has_put: bool,
    ghost tied: { IsPassOf (arc_value queue) pass },
    ghost role: { is_sender (view pass) ≡ true },
    ghost size: { ruled_capacity (arc_value queue) ≡ sites_in (view pass) * PLACES },
    ghost spaced: { spare + length (sent_in (view pass)) ≡ PLACES + length (last_in (view pass)) },
}

impl<I: Addressed + Drop> Drop for Outlet<I> {
    fn drop(self) {
        let Outlet {
            queue: _,
            pass: _,
            spare: _,
            fresh: _,
            has_put: _,
        } = self;
    }
}
