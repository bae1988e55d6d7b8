ghost use Rattle.std.specs.Prelude.{◌≡◌, ◌≤◌, ◌+◌, ◌↔◌, OnOk, OnErr, IsOk, IfOk, IfErr, IfSome, IfNone, IsTrue, MatchOption};
ghost use Rattle.std.specs.FinMap as map;
ghost use Rattle.np_code.specs.Programs.{ProgramTable};
ghost use Rattle.agent_index.specs.declared.wait.Wait.TheVariants as wait;
ghost use Rattle.agent_pool.specs.declared.held.Held.TheVariants as held;
ghost use Rattle.agent_pool.specs.Held.{wait_of};
ghost use Rattle.agent_pool.specs.Idle.{IsIdle};
ghost use Rattle.agent_pool.specs.Pools.{Unchanged, IsFiled, atoms_of};
ghost use Rattle.agent_pool.specs.Readies.{IsReady, NoPost, NothingReady};
ghost use Rattle.agent_pool.specs.Rows.{ActsAs, NeverActs, GoesOnAs, Reduces};
ghost use Rattle.agent_pool.specs.declared.ready.Ready.{Ready};
ghost use Rattle.np_syntax.specs.declared.event.Kind.{Kind};
ghost use Rattle.np_syntax.specs.declared.event.Made.{Made};
ghost use Rattle.np_calculus.specs.Changes.{still};
ghost use Rattle.agent_pool.specs.Waiting.{NoneWaitsOn, WaitOn};

use super::decide::can_do;
use super::held::{Held, node_of, wait_of};
use super::ready::Ready;
use super::resting::idle_in;
use super::search::{likely_in, ready_in};
use agent_index::{Index, Wait, Waiters};
use np_code::{Code, Node};
use np_eval::Frame;
use np_syntax::{Memory, Name, Tag, Value};
use std::alloc::Global;
use std::marker::Model;

/// An agent: its name and its atoms by their marks, each filed under what it waits for. Its `spare` is how many
/// atoms more are sure to find a place.
pub struct Agent {
    name: Name,
    pub(super) atoms: Index<Held>,
}

impl Drop for Agent {
    fn drop(self) {
        let Agent { name: _, atoms: _ } = self;
    }
}

impl Model for Agent {
    ghost use Rattle.agent_pool.specs.Pools.{Pool, pool_code};

    ghost Value = { Pool };

    ghost coded = { pool_code };

    ghost view = { λ agent. record { name = agent.name; atoms = agent.atoms.items; spare = agent.atoms.spare } };
}

impl Agent {
    /// An agent with one atom, which is taken to act alone.
    pub fn new(
        alloc: Global,
        name: Name,
        mark: Name,
        root: u32,
        frame: Frame,
    ) -> Result<Agent, Memory>
        ensures name { IfOk result (λ agent. agent.name ≡ name) }
        ensures atoms { IfOk result (λ agent. agent.atoms ≡ map.insert map.empty mark (wait.Acts, held.Node root frame)) }
        ensures filed { IfOk result (λ agent. (code : ProgramTable) → wait_of code.processes (held.Node root frame) ≡ wait.Acts
            → IsFiled code.processes agent.atoms) }
    {
        Agent::with_atom(alloc, name, mark, Held::Node(root, frame), Wait::Acts)
    }

    /// An agent with one atom, filed under what it waits for.
    #[tactic(auto, using(crate::proofs::Files::beginnings))]
    pub(super) fn with_atom(
        alloc: Global,
        name: Name,
        mark: Name,
        held: Held,
        wait: Wait,
    ) -> Result<Agent, Memory>
        ensures name { IfOk result (λ agent. agent.name ≡ name) }
        ensures atoms { IfOk result (λ agent. agent.atoms ≡ map.insert map.empty mark (wait, held)) }
        ensures filed { IfOk result (λ agent. (code : ProgramTable) → wait_of code.processes held ≡ wait
            → IsFiled code.processes agent.atoms) }
    {
        let mut atoms = Index::new(alloc)?;
        atoms.reserve(1)?;
        atoms.put(mark, held, wait);
        Ok(Agent { name, atoms })
    }

    pub fn name(&self) -> Name
        ensures { result ≡ self.now.name }
    {
        self.name
    }

    /// Makes sure of a place for one more atom.
    pub fn make_room(&mut self) -> Result<(), Memory>
        ensures unchanged { Unchanged self.old self.new }
        ensures filed { (code : ProgramTable) → IsFiled code.processes self.old.atoms → IsFiled code.processes self.new.atoms }
        ensures more { self.old.spare ≤ self.new.spare }
        ensures ok { OnOk result (1 ≤ self.new.spare) }
    {
        self.atoms.reserve(1)
    }

    /// An output comes from outside. A refusal hands its value back, and leaves the agent as it was.
    #[tactic(auto, using(crate::proofs::Files::received))]
    pub fn receive(
        &mut self,
        mark: Name,
        chan: Name,
        value: Value,
        tag: Tag,
    ) -> Result<(), (Value, Memory)>
        ensures atoms { OnOk result (self.new.atoms ≡ map.insert self.old.atoms mark (wait.Gives chan, held.Given chan value tag)) }
        ensures name { self.new.name ≡ self.old.name }
        ensures filed { (code : ProgramTable) → IsFiled code.processes self.old.atoms → IsFiled code.processes self.new.atoms }
        ensures spare { self.old.spare ≤ self.new.spare + 1 }
        ensures err { OnErr result (Unchanged self.old self.new) }
        ensures returned { IfErr result (λ refused. refused.0 ≡ value) }
        ensures room { 1 ≤ self.old.spare → IsOk result }
    {
        match self.atoms.reserve(1) {
            Ok(()) => {
                self.atoms
                    .put(mark, Held::Given(chan, value, tag), Wait::Gives(chan));
                Ok(())
            }
            Err(memory) => Err((value, memory)),
        }
    }

    /// What the agent can do, and none exactly where it can do nothing. It takes no memory. Where the agent is filed by
    /// the code, it walks over the atoms only to answer none, and then once.
    pub fn first_ready(&self, code: &Code) -> Option<Ready>
        ensures post { IfSome result NoPost }
        ensures some { IfSome result (IsReady code.now (atoms_of code.now.processes self.now)) }
        ensures none { IfNone result (NothingReady code.now (atoms_of code.now.processes self.now)) }
    {
        ready_in(code, &self.atoms)
    }

    /// What the agent can do, if the index tells any. It takes no memory and walks over nothing. There may be something
    /// where none is told.
    pub fn likely(&self, code: &Code) -> Option<Ready>
        ensures post { IfSome result NoPost }
        ensures some { IfSome result (IsReady code.now (atoms_of code.now.processes self.now)) }
    {
        likely_in(code, &self.atoms)
    }

    /// Whether this is something that the agent can do. It takes no memory and walks over nothing.
    pub fn is_ready(&self, code: &Code, r: Ready) -> bool
        ensures { IsTrue result ↔ IsReady code.now (atoms_of code.now.processes self.now) r }
    {
        can_do(code, &self.atoms, r)
    }

    /// Whether each atom is an output or an input, plain or replicated, and no output and input are on one channel. It
    /// takes no memory. Where the agent is filed by the code, it walks over the atoms once, and looks up each input's
    /// channel.
    pub fn idle(&self, code: &Code) -> bool
        ensures { IsTrue result ↔ IsIdle code.now.processes self.now.atoms }
    {
        idle_in(code, &self.atoms)
    }

    /// Who waits on a channel, and none exactly where no one does. It takes no memory.
    pub fn waiting(&self, code: &Code, chan: Name) -> Option<&Waiters>
        requires { IsFiled code.now.processes self.now.atoms }
        ensures { MatchOption result (NoneWaitsOn code.now.processes self.now.atoms chan)
            (λ waiters. WaitOn code.now.processes self.now.atoms chan waiters.now) }
    {
        self.atoms.waiting(chan)
    }

    /// The node and the frame of the acting atom, if there is one and it is no output that came from outside.
    pub(super) fn acting<'a>(&'a self, code: &'a Code, r: Ready) -> Option<(&'a Node, &'a Frame)>
        ensures { MatchOption result (NeverActs code.now self.now r) (λ found. ActsAs code.now self.now r found.0.now found.1.now) }
    {
        match self.atoms.get(r.actor) {
            Some(held) => node_of(code, held),
            None => None,
        }
    }

    /// Puts an atom under a mark, where there is room for it.
    #[tactic(auto, using(crate::proofs::Files::files))]
    pub(super) fn file(&mut self, code: &Code, mark: Name, held: Held)
        requires { 1 ≤ self.old.spare }
        ensures atoms { self.new.atoms ≡ map.insert self.old.atoms mark (wait_of code.now.processes held, held) }
        ensures name { self.new.name ≡ self.old.name }
        ensures filed { IsFiled code.now.processes self.old.atoms → IsFiled code.now.processes self.new.atoms }
        ensures spare { self.old.spare ≤ self.new.spare + 1 }
    {
        let wait = wait_of(code, &held);
        self.atoms.put(mark, held, wait);
    }

    /// Takes an atom out.
    #[tactic(auto, using(crate::proofs::Files::files))]
    pub(super) fn remove(&mut self, mark: Name)
        ensures atoms { self.new.atoms ≡ map.remove self.old.atoms mark }
        ensures name { self.new.name ≡ self.old.name }
        ensures filed { (code : ProgramTable) → IsFiled code.processes self.old.atoms → IsFiled code.processes self.new.atoms }
        ensures spare { self.old.spare ≤ self.new.spare }
    {
        self.atoms.remove(mark);
    }

    /// Puts an atom under a mark.
    pub(super) fn go_on(&mut self, code: &Code, mark: Name, held: Held) -> Result<(), Memory>
        ensures atoms { OnOk result (self.new.atoms ≡ map.insert self.old.atoms mark (wait_of code.now.processes held, held)) }
        ensures name { self.new.name ≡ self.old.name }
        ensures filed { IsFiled code.now.processes self.old.atoms → IsFiled code.now.processes self.new.atoms }
        ensures err { OnErr result (Unchanged self.old self.new) }
    {
        self.atoms.reserve(1)?;
        self.file(code, mark, held);
        Ok(())
    }

    /// Puts what was made under a mark. Where it is what a row gives, the agent goes on by that row.
    #[tactic(auto, using(crate::proofs::Maps::maps))]
    pub(super) fn reduce(
        &mut self,
        code: &Code,
        mark: Name,
        held: Result<Held, Memory>,
    ) -> Result<(), Memory>
        ensures row { (k : Kind) (r : Ready) (made : Made) → IfOk held (GoesOnAs k code.now self.old r made mark)
            → OnOk result (Reduces k code.now self.old self.new r made still) }
        ensures name { self.new.name ≡ self.old.name }
        ensures filed { IsFiled code.now.processes self.old.atoms → IsFiled code.now.processes self.new.atoms }
        ensures err { OnErr result (Unchanged self.old self.new) }
    {
        self.go_on(code, mark, held?)
    }
}
