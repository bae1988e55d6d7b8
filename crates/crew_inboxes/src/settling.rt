ghost use Rattle.std.specs.Prelude.{◌≡◌, true, false, length};
ghost use Rattle.crossbeam_queue.specs.Passes.{view};
ghost use Rattle.site_inboxes.specs.Ends.{Counts};
ghost use Rattle.site_inboxes.specs.Views.{number_in};
ghost use Rattle.crew_inboxes.specs.Ways.{RestsUnless, WaySettled, taken_of, waiting_of, last_by};

use agent_move::Item;
use site_inboxes::{Inbox, Outlet};
use site_links::PLACES;

/// Whether a way is at rest, since nothing was put on it, and no item was taken from its site, since it was settled so.
fn rests(way: &Outlet<Item>, fresh: u32) -> bool
    ensures { result ≡ true → (way.now.has_put ≡ false) × (fresh ≡ 0) }
{
    !way.has_put && fresh == 0
}

/// Settles a way into an inbox, of which so many items were taken since it was settled last, and tells how many items wait on it. A way
/// at rest stands settled.
pub fn settle_way(way: &mut Outlet<Item>, inbox: &mut Inbox<Item>, fresh: u32) -> usize
    requires joined { way.old.pass.table_id ≡ inbox.old.pass.table_id }
    requires fresh { Counts (taken_of inbox.old (number_in (view way.old.pass))) (last_by way.old) fresh }
    requires rests { ∥ RestsUnless (taken_of inbox.old (number_in (view way.old.pass)))
        (waiting_of inbox.old (number_in (view way.old.pass))) way.old fresh ∥₁ }
    ensures settled { WaySettled way.old inbox.old way.new inbox.new }
    ensures waiting { result ≡ length (waiting_of inbox.new (number_in (view way.old.pass))) }
{
    if rests(way, fresh) {
        return 0;
    }
    way.settle(inbox, fresh);
    (PLACES - way.spare) as usize
}
