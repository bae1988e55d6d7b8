ghost use Rattle.std.specs.Prelude.{◌≡◌, ◌≤◌, ◌∷◌, [], Some, None, OnOk, OnErr, IfOk, IfSome, IsSome, cond, false, true};
ghost use Rattle.np_syntax.specs.declared.event.Kind.TheVariants as kind;
ghost use Rattle.np_syntax.specs.declared.event.Made.TheVariants as made;
ghost use Rattle.np_eval.specs.Eval.{agent_of};
ghost use Rattle.np_calculus.specs.declared.config.Place.TheVariants as place;
ghost use Rattle.np_calculus.specs.Changes.{put, still};
ghost use Rattle.np_calculus.specs.Rows.{change_in};
ghost use Rattle.agent_pool.specs.Pools.{Unchanged, IsFiled};
ghost use Rattle.agent_pool.specs.Rows.{Reduces, IsMet, own_sight, event_of};
ghost use Rattle.agent_pool.specs.Moves.{IsDepart, IsSent, IsTold, IsAway, IsTarget, LocalLeaves, IsSplit, Births};

use super::agent::Agent;
use super::held::{Held, wait_of};
use super::operands::{agent_of, site_in};
use super::ready::Ready;
use np_calculus::Packet;
use np_code::{Code, NodeForm};
use np_eval::{chan_of, eval};
use np_syntax::{Memory, Name, Value};
use std::alloc::Global;

// The rows of what leaves an agent: the agent itself, a new agent, a message.
impl Agent {
    /// A migration: the agent leaves for the site that is answered.
    #[tactic(auto, using(crate::proofs::Maps::maps))]
    pub fn depart(&mut self, alloc: Global, code: &Code, r: Ready) -> Result<u32, Memory>
        requires { IsMet kind.Depart code.now self.old r made.Nothing }
        ensures row { IfOk result (λ to. Reduces kind.Depart code.now self.old self.new r made.Nothing
            (record still { places = put self.old.name (place.Way to) ∷ [] })) }
        ensures name { self.new.name ≡ self.old.name }
        ensures filed { IsFiled code.now.processes self.old.atoms → IsFiled code.now.processes self.new.atoms }
        ensures err { OnErr result (Unchanged self.old self.new) }
    {
        let (held, to) = self.after_depart(alloc, code, r)?;
        self.go_on(code, r.actor, held)?;
        Ok(to)
    }

    /// What a migration goes on as, and the site for which the agent leaves.
    fn after_depart(&self, alloc: Global, code: &Code, r: Ready) -> Result<(Held, u32), Memory>
        requires { IsMet kind.Depart code.now self.now r made.Nothing }
        ensures { IfOk result (λ gone. IsDepart code.now self.now r gone.0 gone.1) }
    {
        let Some((node, frame)) = self.acting(code, r) else {
            unreachable!();
        };
        let NodeForm::Migrate(site, body) = &node.form else {
            unreachable!();
        };
        let Some(to) = site_in(code.sites(), site, frame) else {
            unreachable!();
        };
        Ok((Held::Node(*body, frame.copy(alloc)?), to))
    }

    /// A message leaves as the packet that is answered.
    #[tactic(auto, using(crate::proofs::Maps::maps))]
    pub fn send(&mut self, alloc: Global, code: &Code, r: Ready) -> Result<Packet, Memory>
        requires { IsMet kind.Send code.now self.old r made.Nothing }
        ensures row { IfOk result (λ packet. Reduces kind.Send code.now self.old self.new r made.Nothing
            (record still { packets = put r.actor packet ∷ [] })) }
        ensures name { self.new.name ≡ self.old.name }
        ensures filed { IsFiled code.now.processes self.old.atoms → IsFiled code.now.processes self.new.atoms }
        ensures err { OnErr result (Unchanged self.old self.new) }
    {
        let packet = self.packet_of(alloc, code, r)?;
        self.remove(r.actor);
        Ok(packet)
    }

    /// The packet of a message.
    fn packet_of(&self, alloc: Global, code: &Code, r: Ready) -> Result<Packet, Memory>
        requires { IsMet kind.Send code.now self.now r made.Nothing }
        ensures { IfOk result (λ packet. IsSent code.now self.now r packet) }
    {
        let Some((node, frame)) = self.acting(code, r) else {
            unreachable!();
        };
        let NodeForm::Send(agent, site, chan, value) = &node.form else {
            unreachable!();
        };
        let Some(agent) = agent_of(agent, frame) else {
            unreachable!();
        };
        let Some(to) = site_in(code.sites(), site, frame) else {
            unreachable!();
        };
        let Some(chan) = chan_of(chan, frame) else {
            unreachable!();
        };
        let Some(value) = eval(alloc, value, frame)? else {
            unreachable!();
        };
        let tag = r.tag;
        Ok(Packet {
            to,
            agent,
            chan,
            value,
            tag,
        })
    }

    /// The agent for which a location test asks.
    pub fn target(&self, code: &Code, r: Ready) -> Name
        requires { IsMet kind.Local code.now self.now r made.Nothing }
        ensures { IsTarget code.now self.now r result }
    {
        let Some((node, frame)) = self.acting(code, r) else {
            unreachable!();
        };
        let NodeForm::IfLocal(agent, _, _, _, _) = &node.form else {
            unreachable!();
        };
        let Some(agent) = agent_of(agent, frame) else {
            unreachable!();
        };
        agent
    }

    /// A location test, where it is told whether its agent is here. If so, its output is answered as a packet for that
    /// agent, and one more atom finds a place here.
    pub fn local(
        &mut self,
        alloc: Global,
        code: &Code,
        r: Ready,
        here: bool,
        mark: Name,
    ) -> Result<Option<Packet>, Memory>
        requires { IsSome (change_in kind.Local (own_sight code.now self.old here)
            (event_of 0 r (cond here (made.One mark) made.Nothing))) }
        ensures row { IfOk result (λ told. LocalLeaves code.now self.old self.new r mark here told) }
        ensures name { self.new.name ≡ self.old.name }
        ensures filed { IsFiled code.now.processes self.old.atoms → IsFiled code.now.processes self.new.atoms }
        ensures spare { OnOk result (1 ≤ self.new.spare) }
        ensures err { OnErr result (Unchanged self.old self.new) }
    {
        if here {
            Ok(Some(self.tell(alloc, code, r, mark)?))
        } else {
            self.pass(alloc, code, r)?;
            Ok(None)
        }
    }

    /// A location test that finds its agent.
    #[tactic(auto, using(crate::proofs::Maps::maps))]
    fn tell(&mut self, alloc: Global, code: &Code, r: Ready, mark: Name) -> Result<Packet, Memory>
        requires { IsSome (change_in kind.Local (own_sight code.now self.old true) (event_of 0 r (made.One mark))) }
        ensures row { IfOk result (λ packet. LocalLeaves code.now self.old self.new r mark true (Some packet)) }
        ensures name { self.new.name ≡ self.old.name }
        ensures filed { IsFiled code.now.processes self.old.atoms → IsFiled code.now.processes self.new.atoms }
        ensures spare { OnOk result (1 ≤ self.new.spare) }
        ensures err { OnErr result (Unchanged self.old self.new) }
    {
        let (held, packet) = self.after_told(alloc, code, r, mark)?;
        self.atoms.reserve(2)?;
        self.file(code, r.actor, held);
        Ok(packet)
    }

    /// What a location test that finds its agent goes on as, and its output.
    fn after_told(
        &self,
        alloc: Global,
        code: &Code,
        r: Ready,
        mark: Name,
    ) -> Result<(Held, Packet), Memory>
        requires { IsSome (change_in kind.Local (own_sight code.now self.now true) (event_of 0 r (made.One mark))) }
        ensures { IfOk result (λ told. IsTold code.now self.now r mark told.0 told.1) }
    {
        let Some((node, frame)) = self.acting(code, r) else {
            unreachable!();
        };
        let NodeForm::IfLocal(agent, chan, value, met, _) = &node.form else {
            unreachable!();
        };
        let Some(agent) = agent_of(agent, frame) else {
            unreachable!();
        };
        let Some(chan) = chan_of(chan, frame) else {
            unreachable!();
        };
        let Some(value) = eval(alloc, value, frame)? else {
            unreachable!();
        };
        let tag = r.tag;
        let held = Held::Node(*met, frame.copy(alloc)?);
        let packet = Packet {
            to: 0,
            agent,
            chan,
            value,
            tag,
        };
        Ok((held, packet))
    }

    /// A location test that does not find its agent.
    #[tactic(auto, using(crate::proofs::Maps::maps))]
    fn pass(&mut self, alloc: Global, code: &Code, r: Ready) -> Result<(), Memory>
        requires { IsMet kind.Local code.now self.old r made.Nothing }
        ensures row { OnOk result (Reduces kind.Local code.now self.old self.new r made.Nothing still) }
        ensures name { self.new.name ≡ self.old.name }
        ensures filed { IsFiled code.now.processes self.old.atoms → IsFiled code.now.processes self.new.atoms }
        ensures spare { OnOk result (1 ≤ self.new.spare) }
        ensures err { OnErr result (Unchanged self.old self.new) }
    {
        let held = self.after_passed(alloc, code, r)?;
        self.atoms.reserve(2)?;
        self.file(code, r.actor, held);
        Ok(())
    }

    /// What a location test that does not find its agent goes on as.
    fn after_passed(&self, alloc: Global, code: &Code, r: Ready) -> Result<Held, Memory>
        requires { IsMet kind.Local code.now self.now r made.Nothing }
        ensures { IfOk result (λ held. IsAway code.now self.now r held) }
    {
        let Some((node, frame)) = self.acting(code, r) else {
            unreachable!();
        };
        let NodeForm::IfLocal(_, _, _, _, unmet) = &node.form else {
            unreachable!();
        };
        Ok(Held::Node(*unmet, frame.copy(alloc)?))
    }

    /// The making of an agent, which is answered.
    #[tactic(auto, using(crate::proofs::Maps::maps))]
    pub fn child(
        &mut self,
        alloc: Global,
        code: &Code,
        r: Ready,
        agent: Name,
        mark: Name,
    ) -> Result<Agent, Memory>
        requires { IsMet kind.Agent code.now self.old r (made.Two agent mark) }
        ensures row { IfOk result (λ child. Births code.now self.old self.new r agent mark child) }
        ensures name { self.new.name ≡ self.old.name }
        ensures filed { IsFiled code.now.processes self.old.atoms → IsFiled code.now.processes self.new.atoms }
        ensures child_filed { IfOk result (λ child. IsFiled code.now.processes child.atoms) }
        ensures err { OnErr result (Unchanged self.old self.new) }
    {
        let (body, rest) = self.after_child(alloc, code, r, agent, mark)?;
        let wait = wait_of(code, &body);
        let child = Agent::with_atom(alloc, agent, mark, body, wait)?;
        self.go_on(code, r.actor, rest)?;
        Ok(child)
    }

    /// The first atom of a new agent, and what the process that makes it goes on as.
    fn after_child(
        &self,
        alloc: Global,
        code: &Code,
        r: Ready,
        agent: Name,
        mark: Name,
    ) -> Result<(Held, Held), Memory>
        requires { IsMet kind.Agent code.now self.now r (made.Two agent mark) }
        ensures { IfOk result (λ parts. IsSplit code.now self.now r agent mark parts.0 parts.1) }
    {
        let Some((node, frame)) = self.acting(code, r) else {
            unreachable!();
        };
        let NodeForm::Agent(binder, body, rest) = &node.form else {
            unreachable!();
        };
        let mut env = frame.copy(alloc)?;
        env.set(*binder, Value::Agent(agent))?;
        let own = env.copy(alloc)?;
        Ok((Held::Node(*body, env), Held::Node(*rest, own)))
    }
}
