ghost use Rattle.std.specs.Prelude.{◌≡◌, ◌≢◌, ◌<◌, ◌+◌, max, None};
ghost use Rattle.np_syntax.specs.declared.limits.TheConstants.{STAMPS_END};
ghost use Rattle.np_syntax.specs.declared.event.Kind.TheVariants as kind;
ghost use Rattle.agent_pool.specs.Rows.{event_of};
ghost use Rattle.site_state.specs.Doing.{HasRoom};
ghost use Rattle.site_state.specs.Parts.{IsNoted, names_in};
ghost use Rattle.np_site_runs.specs.Holdings.{name_of};

use super::site::Site;
use agent_pool::Ready;
use item_events::record_taken;
use np_syntax::{Event, Made, Name};

/// How many names are made.
fn names_in(made: Made) -> u32
    ensures { result ≡ names_in made }
{
    match made {
        Made::Nothing => 0,
        Made::One(_) => 1,
        Made::Two(_, _) => 2,
    }
}

/// The event of a ready at a site, with the names that it makes.
pub fn event_of(site: u32, r: Ready, made: Made) -> Event
    ensures { result ≡ event_of site r made }
{
    Event {
        site,
        kind: r.kind,
        actor: r.actor,
        other: r.other,
        tag: r.tag,
        made,
    }
}

impl Site {
    /// The next name that the site makes.
    pub(super) fn next_name(&self) -> Name
        ensures { result ≡ name_of self.now.site self.now.next }
    {
        Name {
            site: self.site,
            n: self.next,
        }
    }

    /// Records an event of an agent, which prints nothing, and answers its stamp.
    pub(super) fn note(&mut self, r: Ready, made: Made) -> u64
        requires room { HasRoom self.old }
        requires kind { r.kind ≢ kind.Print }
        ensures stamp { result ≡ self.old.clock + 1 }
        ensures noted { IsNoted self.old (self.old.clock + 1) (event_of self.old.site r made) None self.new }
    {
        let stamp = self.clock.tick();
        let event = event_of(self.site, r, made);
        self.history.push(stamp, event);
        self.next += names_in(made);
        stamp
    }

    /// Records an event that takes an item with a stamp.
    pub(super) fn note_taken(&mut self, stamp: u64, event: Event)
        requires room { HasRoom self.old }
        requires kind { event.kind ≢ kind.Print }
        requires stamp { stamp < STAMPS_END }
        ensures { IsNoted self.old (max self.old.clock stamp + 1) event None self.new }
    {
        record_taken(&mut self.clock, &mut self.history, stamp, event);
        self.next += names_in(event.made);
    }
}
