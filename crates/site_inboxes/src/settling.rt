ghost use Rattle.std.specs.Prelude.{◌≡◌, ◌≢◌, ◌+◌, ◌-◌, ◌<◌, ◌++◌, ℕ, true, false, length};
ghost use Rattle.crossbeam_queue.specs.Passes.{view, IsPassOf, IsSamePass};
ghost use Rattle.site_links.specs.Words.{Begins};
ghost use Rattle.site_links.specs.declared.places.TheConstants.{PLACES};
ghost use Rattle.np_inbox_rule.specs.Steps.{sent_in, last_in, got_in, told_in};
ghost use Rattle.site_inboxes.specs.Views.{is_owner, is_sender, number_in};
ghost use Rattle.site_inboxes.specs.Ends.{IsSameWay, SameOutlet, SameInbox, Settled, Counts, got_at, known_at};

use crate::ends::{Inbox, Outlet, Queue};
use crossbeam_queue::Pass;
use np_inbox_rule::{JoinGot, JoinSent, Look, NoteGot, NoteSent, View};
use site_links::{Addressed, PLACES};

impl<I: Addressed> Outlet<I> {
    /// Settles the link to the site of an inbox, of which so many items were taken since it was settled last.
    pub fn settle(&mut self, inbox: &mut Inbox<I>, fresh: u32)
        requires joined { self.old.pass.table_id ≡ inbox.old.pass.table_id }
        requires fresh { Counts (got_at I.sender (view inbox.old.pass) (number_in (view self.old.pass)))
            (last_in (view self.old.pass)) fresh }
        ensures same { SameOutlet self.old self.new × SameInbox inbox.old inbox.new }
        ensures sent { sent_in (view self.new.pass) ≡ sent_in (view self.old.pass) }
        ensures got { got_in (view inbox.new.pass) ≡ got_in (view inbox.old.pass) }
        ensures last { last_in (view self.new.pass) ≡ got_at I.sender (view inbox.new.pass) (number_in (view self.old.pass)) }
        ensures told { (k : ℕ) → k ≢ number_in (view self.old.pass) → told_in (view inbox.new.pass) k ≡ told_in (view inbox.old.pass) k }
        ensures settled { got_at I.sender (view inbox.new.pass) (number_in (view self.old.pass))
            ++ known_at I.sender (view inbox.new.pass) (number_in (view self.old.pass)) ≡ sent_in (view self.new.pass) }
        ensures free { self.new.spare ≡ PLACES - length (known_at I.sender (view inbox.new.pass) (number_in (view self.old.pass))) }
        ensures rests { self.new.has_put ≡ false → self.new.spare ≡ PLACES }
    {
        pass_notes(&*self.queue, &mut self.pass, &mut inbox.pass);
        self.spare += fresh;
        self.has_put = self.spare < PLACES;
    }

    /// One item more was taken from the site. The count stays where it is at its most.
    pub fn count(&mut self)
        ensures same { IsSameWay self.old self.new }
        ensures more { self.old.fresh < PLACES → self.new.fresh ≡ self.old.fresh + 1 }
        ensures some { 0 < self.new.fresh }
    {
        self.fresh = self.fresh.saturating_add(1);
    }

    /// The link from the site is settled.
    pub fn restart(&mut self)
        ensures same { IsSameWay self.old self.new }
        ensures none { self.new.fresh ≡ 0 }
    {
        self.fresh = 0;
    }
}

/// A note of the sender goes to the owner, and then one of the owner to the sender, which looks at the queue.
fn pass_notes<I: Addressed>(
    queue: &Queue<I>,
    sender: &mut Pass<I, View<I>>,
    owner: &mut Pass<I, View<I>>,
)
    requires passes { IsPassOf queue.now sender.old × IsPassOf queue.now owner.old }
    requires roles { (is_sender (view sender.old) ≡ true) × (is_owner (view owner.old) ≡ true) }
    ensures same { IsSamePass sender.old sender.new × IsSamePass owner.old owner.new }
    ensures settled { Settled I.sender (view sender.old) (view owner.old) (view sender.new) (view owner.new) }
    ensures freed { Begins (sent_in (view sender.new)) (last_in (view sender.new)) }
{
    let note = queue.another::<NoteSent>(sender);
    queue.absorb::<JoinSent>(owner, note);
    let note = queue.another::<NoteGot>(owner);
    queue.absorb::<JoinGot>(sender, note);
    queue.learn_as::<Look>(sender);
}
