ghost use Rattle.std.specs.Prelude.{◌≡◌, ◌-◌, ◌++◌, ◌∷◌, [], true, OnOk, IfErr};
ghost use Rattle.crossbeam_queue.specs.Passes.{view};
ghost use Rattle.np_inbox_rule.specs.Steps.{sent_in, last_in};
ghost use Rattle.site_inboxes.specs.Views.{number_in};
ghost use Rattle.site_inboxes.specs.Ends.{SameOutlet};

use crate::ends::Outlet;
use np_inbox_rule::Put;
use site_links::Addressed;
use std::sync::Wait;

impl<I: Addressed> Outlet<I> {
    /// Puts an item, or gives it back where no place was known to be free.
    pub fn put<R: Wait>(&mut self, rt: &R, item: I) -> Result<(), I>
        requires { I.sender item ≡ number_in (view self.old.pass) }
        ensures same { SameOutlet self.old self.new }
        ensures last { last_in (view self.new.pass) ≡ last_in (view self.old.pass) }
        ensures noted { self.new.has_put ≡ true }
        ensures room { self.new.spare ≡ self.old.spare - 1 }
        ensures ok { OnOk result (sent_in (view self.new.pass) ≡ sent_in (view self.old.pass) ++ item ∷ []) }
        ensures err { IfErr result (λ back. (back ≡ item) × (sent_in (view self.new.pass) ≡ sent_in (view self.old.pass))
            × (self.old.spare ≡ 0)) }
    {
        self.has_put = true;
        if self.spare == 0 {
            return Err(item);
        }
        match self.queue.push_as::<Put, R>(rt, &mut self.pass, item) {
            Ok(()) => {
                self.spare -= 1;
                Ok(())
            }
            Err(back) => Err(back),
        }
    }
}
