ghost use Rattle.std.specs.Prelude.{◌≡◌, ◌<◌, ◌++◌, ◌∷◌, [], ℕ, MatchOption};
ghost use Rattle.crossbeam_queue.specs.Passes.{view};
ghost use Rattle.site_links.specs.Words.{Begins};
ghost use Rattle.np_inbox_rule.specs.Steps.{got_in, told_in};
ghost use Rattle.site_inboxes.specs.Views.{sites_in};
ghost use Rattle.site_inboxes.specs.Ends.{SameInbox, TakesFrom, known_at};

use crate::ends::Inbox;
use np_inbox_rule::Take;
use site_links::Addressed;
use std::sync::Wait;

impl<I: Addressed> Inbox<I> {
    /// Takes an item, if one is there.
    pub fn take<R: Wait>(&mut self, rt: &R) -> Option<I>
        ensures same { SameInbox self.old self.new }
        ensures told { (k : ℕ) → told_in (view self.new.pass) k ≡ told_in (view self.old.pass) k }
        ensures taken { MatchOption result ((got_in (view self.new.pass) ≡ got_in (view self.old.pass))
            × ((k : ℕ) → known_at I.sender (view self.old.pass) k ≡ []))
            (λ item. TakesFrom I.sender (view self.old.pass) (view self.new.pass) item) }
    {
        match self.queue.pop_as::<Take, R>(rt, &mut self.pass) {
            Some(item) => Some(item),
            None => None,
        }
    }
}
