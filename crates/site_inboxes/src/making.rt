//! How an inbox is made, and the ways into it.
ghost use Rattle.std.specs.Prelude.{◌≡◌, ◌<◌, ◌≤◌, IfOk};
ghost use Rattle.crossbeam_queue.specs.Passes.{view, IsPassOf, IsSamePass};
ghost use Rattle.np_inbox_rule.specs.Steps.{first_view};
ghost use Rattle.np_syntax.specs.declared.limits.TheConstants.{MOST_SITES};
ghost use Rattle.site_inboxes.specs.Views.{sites_in, made_in};
ghost use Rattle.site_inboxes.specs.Fresh.{IsUnusedView, IsSplitOff};

use crate::ends::{Inbox, Outlet, Queue};
use crossbeam_queue::Pass;
use np_inbox_rule::{NewSender, OneSite, View};
use np_syntax::{MOST_SITES, Memory};
use site_links::{Addressed, PLACES};
use std::alloc::Global;
use std::sync::Arc;

impl<I: Addressed> Inbox<I> {
    /// The inbox of one of so many sites, before there is a way into it.
    pub fn new(alloc: Global, sites: u32) -> Result<Inbox<I>, Memory>
        requires { (1 ≤ sites) × (sites ≤ MOST_SITES) }
        ensures { IfOk result (λ made. IsUnusedView sites 0 (view made.pass)) }
    {
        let places = sites as usize * PLACES as usize;
        let (queue, mut pass) = Queue::ruled(alloc, places)?;
        count_sites(&queue, &mut pass, sites);
        let queue = Arc::new(alloc, queue)?;
        Ok(Inbox { queue, pass })
    }

    /// The way into the inbox from the next site.
    pub fn outlet(&mut self) -> Result<Outlet<I>, Memory>
        requires { made_in (view self.old.pass) < sites_in (view self.old.pass) }
        ensures { IfOk result (λ out. IsSplitOff self.old self.new out) }
    {
        let queue = Arc::try_clone(&self.queue)?;
        let pass = self.queue.another::<NewSender>(&mut self.pass);
        Ok(Outlet {
            queue,
            pass,
            spare: PLACES,
            fresh: 0,
            has_put: false,
        })
    }
}

/// Counts the sites, before a sender is made.
fn count_sites<I: Addressed>(queue: &Queue<I>, pass: &mut Pass<I, View<I>>, sites: u32)
    requires { IsPassOf queue.now pass.old × (view pass.old ≡ first_view) }
    ensures same { IsSamePass pass.old pass.new }
    ensures counted { IsUnusedView sites 0 (view pass.new) }
{
    for site in 0..sites {
        let _spent = queue.another::<OneSite>(pass);
    }
}
