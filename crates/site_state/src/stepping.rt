ghost use Rattle.std.specs.Prelude.{◌≡◌, length, IfOk, OnOk, OnErr, IfSome, IfNone, IsTrue, IsFalse};
ghost use Rattle.agent_pool.specs.Readies.{NoPost};
ghost use Rattle.site_state.specs.Doing.{HasDoneEvent, HasRoom, IsStepped, IsTried, event_at};
ghost use Rattle.site_state.specs.Parts.{IsLooked};
ghost use Rattle.site_agents.specs.Standings.{CanDo, NoneCan};
ghost use Rattle.site_state.specs.Standings.{IsQuiet, Stays};

use super::site::Site;
use super::within::is_inner;
use agent_pool::Ready;
use np_code::Code;
use np_syntax::{Kind, Memory, Name};
use std::alloc::Global;

/// What came of a step: an event was done, no agent could do anything, or there was no room for an event.
#[derive(Clone, Copy, PartialEq, Eq)]
pub enum Stepped {
    Did,
    Quiet,
    Spent,
}

impl Site {
    /// Does one event of an agent that stands here. Each agent that was found to be quiet has to be so by this code, as it is where
    /// the site was given no other.
    pub fn step(&mut self, alloc: Global, code: &Code) -> Result<Stepped, Memory>
        requires sites { length code.now.sites ≡ length self.old.outgoing }
        requires quiet { IsQuiet code.now self.old }
        ensures ok { IfOk result (IsStepped code.now self.old self.new) }
        ensures err { OnErr result (Stays code.now self.old self.new) }
    {
        if self.is_spent() {
            return Ok(Stepped::Spent);
        }
        let Some((name, ready)) = self.next_ready(code) else {
            return Ok(Stepped::Quiet);
        };
        self.do_event(alloc, code, name, ready)?;
        Ok(Stepped::Did)
    }

    /// Does one event of an agent that stands here and whose index tells what it can do. That none is told is no sign that
    /// none can do anything.
    pub fn step_likely(&mut self, alloc: Global, code: &Code) -> Result<Stepped, Memory>
        requires { length code.now.sites ≡ length self.old.outgoing }
        ensures ok { IfOk result (IsTried code.now self.old self.new) }
        ensures err { OnErr result (Stays code.now self.old self.new) }
    {
        if self.is_spent() {
            return Ok(Stepped::Spent);
        }
        let Some((name, ready)) = self.next_likely(code) else {
            return Ok(Stepped::Quiet);
        };
        self.do_event(alloc, code, name, ready)?;
        Ok(Stepped::Did)
    }

    /// Whether there is no room for one more event.
    pub fn is_spent(&self) -> bool
        ensures spent { IsTrue result → length self.now.history.events ≡ self.now.history.budget }
        ensures room { IsFalse result → HasRoom self.now }
    {
        self.history.len() == self.budget
    }

    /// An agent that can do something, and what.
    fn next_ready(&mut self, code: &Code) -> Option<(Name, Ready)>
        ensures stays { IsLooked code.now self.old self.new }
        ensures post { IfSome result (λ found. NoPost found.1) }
        ensures some { IfSome result (λ found. CanDo code.now self.new.agents found.0 found.1) }
        ensures none { IfNone result (IsQuiet code.now self.old → NoneCan code.now self.old.agents) }
    {
        self.agents.next_ready(code)
    }

    /// An agent whose index tells what it can do, and that.
    fn next_likely(&mut self, code: &Code) -> Option<(Name, Ready)>
        ensures stays { IsLooked code.now self.old self.new }
        ensures post { IfSome result (λ found. NoPost found.1) }
        ensures some { IfSome result (λ found. CanDo code.now self.new.agents found.0 found.1) }
    {
        self.agents.next_likely(code)
    }

    /// Does the event of an agent that stands here and can do this, which is no post.
    pub(super) fn do_event(
        &mut self,
        alloc: Global,
        code: &Code,
        name: Name,
        r: Ready,
    ) -> Result<(), Memory>
        requires sites { length code.now.sites ≡ length self.old.outgoing }
        requires room { HasRoom self.old }
        requires can { CanDo code.now self.old.agents name r }
        requires post { NoPost r }
        ensures ok { OnOk result (HasDoneEvent code.now self.old self.new (event_at code.now self.old name r)) }
        ensures err { OnErr result (Stays code.now self.old self.new) }
    {
        if is_inner(r.kind) {
            return self.do_inner(alloc, code, name, r);
        }
        match r.kind {
            Kind::Print => self.do_print(alloc, code, name, r),
            Kind::Send => self.do_send(alloc, code, name, r),
            Kind::Depart => self.do_depart(alloc, code, name, r),
            Kind::Agent => self.do_child(alloc, code, name, r),
            Kind::Local => self.do_local(alloc, code, name, r),
            _ => unreachable!(),
        }
    }
}
