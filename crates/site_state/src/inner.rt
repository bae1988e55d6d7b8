ghost use Rattle.std.specs.Prelude.{◌≡◌, true, false, length, OnOk, OnErr};
ghost use Rattle.np_calculus.specs.Changes.{still};
ghost use Rattle.np_calculus.specs.Rows.{made_of};
ghost use Rattle.np_site_runs.specs.Holdings.{name_of};
ghost use Rattle.site_state.specs.Doing.{HasDoneEvent, HasRoom, event_at};
ghost use Rattle.site_state.specs.Parts.{HasReduced, is_inner};
ghost use Rattle.site_agents.specs.Standings.{CanDo};
ghost use Rattle.site_state.specs.Standings.{Stays};

use super::site::Site;
use super::within::{go_on, made_of};
use agent_pool::Ready;
use np_code::Code;
use np_site_runs::law_own_events;
use np_syntax::{Memory, Name};
use std::alloc::Global;

// Events within an agent that print nothing.
impl Site {
    pub(super) fn do_inner(
        &mut self,
        alloc: Global,
        code: &Code,
        name: Name,
        r: Ready,
    ) -> Result<(), Memory>
        requires room { HasRoom self.old }
        requires can { CanDo code.now self.old.agents name r }
        requires inner { is_inner r.kind ≡ true }
        ensures ok { OnOk result (HasDoneEvent code.now self.old self.new (event_at code.now self.old name r)) }
        ensures err { OnErr result (Stays code.now self.old self.new) }
    {
        law_own_events();
        let first = self.next_name();
        self.reduce(alloc, code, name, r, first)?;
        self.note(r, made_of(r.kind, first, first));
        Ok(())
    }

    /// The agent goes on.
    fn reduce(
        &mut self,
        alloc: Global,
        code: &Code,
        name: Name,
        r: Ready,
        first: Name,
    ) -> Result<(), Memory>
        requires can { CanDo code.now self.old.agents name r }
        requires inner { is_inner r.kind ≡ true }
        ensures ok { OnOk result (HasReduced code.now self.old name r (made_of r.kind false first first) still self.new) }
        ensures err { OnErr result (Stays code.now self.old self.new) }
    {
        let Some(agent) = self.agents.get_mut(name) else {
            unreachable!();
        };
        go_on(agent, alloc, code, r, first)
    }
}
