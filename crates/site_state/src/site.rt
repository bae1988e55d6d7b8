ghost use Rattle.std.specs.Prelude.{◌≡◌, ◌<◌, ◌≤◌, ◌^◌, ◌↔◌, [], None, length, IfOk, IfErr, OnOk, OnErr, IsTrue, MatchOption};
ghost use Rattle.std.specs.Prelude.{option_copied, slice_get};
ghost use Rattle.std.specs.FinMap as map;
ghost use Rattle.np_syntax.specs.declared.limits.TheConstants.{LARGEST_BUDGET};
ghost use Rattle.site_agents.specs.Standings.{AreIdle};
ghost use Rattle.site_state.specs.Lines.{IsNext, NothingFrom, NothingOut, queue_at, room_at};
ghost use Rattle.site_state.specs.Standings.{IsNew, IsSettled, IsStanding, NoneOut, IsOut, StaysForAll};

use super::outgoing::Outgoing;
use agent_move::Item;
use agent_pool::Agent;
use np_code::Code;
use np_syntax::Memory;
use site_agents::Agents;
use site_links::Addressed;
use stamp_history::{Clock, History};
use std::alloc::Global;
use std::marker::Model;

/// One site: for how many events it has room, the agents that stand there, the number of the next name that it makes,
/// its clock, what it made and printed, and the items that it has to put on its links.
pub struct Site {
    pub(super) site: u32,
    pub(super) budget: u32,
    pub(super) agents: Agents,
    pub(super) next: u32,
    pub(super) clock: Clock,
    pub(super) history: History,
    pub(super) outgoing: Outgoing,
}

impl Drop for Site {
    fn drop(self) {
        let Site {
            site: _,
            budget: _,
            agents: _,
            next: _,
            clock: _,
            history: _,
            outgoing: _,
        } = self;
    }
}

impl Model for Site {
    ghost use Rattle.std.specs.Prelude.{◌≡◌};
    ghost use Rattle.site_state.specs.Standings.{Standing, standing_code, IsStanding};

    ghost Value = { Standing };

    ghost coded = { standing_code };

    ghost view = { λ s. record {
      site = s.site;
      agents = s.agents.agents;
      quiet = s.agents.quiet;
      next = s.next;
      clock = s.clock;
      history = s.history.history;
      outgoing = s.outgoing.lines;
    } };

    ghost invariant = { λ s. IsStanding (record {
      site = s.site;
      agents = s.agents.agents;
      quiet = s.agents.quiet;
      next = s.next;
      clock = s.clock;
      history = s.history.history;
      outgoing = s.outgoing.lines;
    }) × (s.history.history.budget ≡ s.budget) };
}

impl Site {
    /// A site with no agents, which has done nothing.
    #[tactic(auto, using(crate::proofs::Sites::sites))]
    pub fn new(alloc: Global, site: u32, sites: u32, budget: u32) -> Result<Site, Memory>
        requires site { site < sites }
        requires budget { budget ≤ LARGEST_BUDGET }
        ensures { IfOk result (IsNew site sites budget) }
    {
        let history = History::new(alloc, site, budget)?;
        let outgoing = Outgoing::new(alloc, sites)?;
        Ok(Site {
            site,
            budget,
            agents: Agents::new(alloc),
            next: 0,
            clock: Clock::new(),
            history,
            outgoing,
        })
    }

    /// The number of the site.
    pub fn number(&self) -> u32
        ensures number { result ≡ self.now.site }
        ensures standing { IsStanding self.now }
    {
        self.site
    }

    /// Adds an agent before the run.
    #[tactic(auto, using(crate::proofs::Sites::sites))]
    pub fn settle_agent(&mut self, agent: Agent) -> Result<(), (Agent, Memory)>
        requires { map.get self.old.agents agent.name ≡ None }
        ensures ok { OnOk result (IsSettled self.old agent self.new) }
        ensures err { OnErr result (StaysForAll self.old self.new) }
        ensures returned { IfErr result (λ refused. refused.0 ≡ agent) }
    {
        match self.agents.reserve(1) {
            Ok(()) => {
                self.agents.put(agent);
                Ok(())
            }
            Err(memory) => Err((agent, memory)),
        }
    }

    /// The first item for a site that waits to be put on its link.
    pub fn first_out(&self, to: u32) -> Option<&Item>
        ensures { option_copied result ≡ slice_get (queue_at self.now.outgoing to) 0 }
    {
        self.outgoing.first(to)
    }

    /// Takes the first item for a site that waits to be put on its link.
    pub fn next_out(&mut self, to: u32) -> Option<Item>
        requires { to < length self.old.outgoing }
        ensures { MatchOption result (NoneOut to self.old self.new) (λ item. IsOut to item self.old self.new) }
    {
        self.outgoing.take(to)
    }

    /// An item that was taken is again the first one for its site, where the place that it left is free.
    pub fn give_back(&mut self, item: Item)
        requires to { item.to < length self.old.outgoing }
        requires place { 0 < room_at self.old.outgoing item.to }
        ensures { IsOut item.to item self.new self.old }
    {
        let to = item.to_site();
        self.outgoing.put_first(to, item);
    }

    /// The events that the site made, and what it printed.
    pub fn history(&self) -> &History
        ensures history { result.now.history ≡ self.now.history }
        ensures standing { IsStanding self.now }
    {
        &self.history
    }

    pub fn into_history(self) -> History
        ensures history { result.history ≡ self.history }
        ensures standing { IsStanding self }
    {
        let Site {
            site: _,
            budget: _,
            agents: _,
            next: _,
            clock: _,
            history,
            outgoing: _,
        } = self;
        history
    }

    /// Whether no item waits to be put on its link.
    pub fn all_sent(&self) -> bool
        ensures { IsTrue result ↔ NothingOut self.now.outgoing }
    {
        self.outgoing.is_empty()
    }

    /// Whether no item waits to be put on the link to a site.
    pub fn has_none_for(&self, to: u32) -> bool
        ensures { IsTrue result ↔ (queue_at self.now.outgoing to ≡ []) }
    {
        self.outgoing.has_none_for(to)
    }

    /// The first site from a number on for which an item may wait to be put on its link.
    pub fn next_for(&self, from: u32) -> Option<u32>
        ensures { MatchOption result (NothingFrom self.now.outgoing from) (IsNext self.now.outgoing from) }
    {
        self.outgoing.next_from(from)
    }

    /// The site for which an item was put out last. It is a hint.
    pub fn last_for(&self) -> u32 {
        self.outgoing.last()
    }

    /// Whether all agents that stand here are idle. It takes no memory.
    pub fn idle(&self, code: &Code) -> bool
        ensures { IsTrue result ↔ AreIdle code.now.processes self.now.agents }
    {
        self.agents.idle(code)
    }
}
