ghost use Rattle.std.specs.Prelude.{◌≡◌, ◌<◌, ◌≤◌, ◌+◌, ◌++◌, ◌∷◌, [], length, OnOk};
ghost use Rattle.agent_index.specs.Lines.{without, first_of, is_bare};

use super::marks::Marks;
use np_syntax::{Memory, Name};
use std::alloc::Global;
use std::marker::Model;

/// The marks of the inputs and of the outputs that wait on a channel, in the order in which they came.
#[derive(Drop)]
pub struct Waiters {
    inputs: Marks,
    outputs: Marks,
}

impl Model for Waiters {
    ghost use Rattle.std.specs.Prelude.{min};
    ghost use Rattle.agent_index.specs.Lines.{Waiting, waiting_code};

    ghost Value = { Waiting };

    ghost coded = { waiting_code };

    ghost view = { λ waiters. record {
      inputs = waiters.inputs.items;
      outputs = waiters.outputs.items;
      room = min waiters.inputs.room waiters.outputs.room;
    } };
}

impl Waiters {
    /// No one waits. It takes no memory.
    pub(super) fn new(alloc: Global) -> Waiters
        ensures inputs { result.inputs ≡ [] }
        ensures outputs { result.outputs ≡ [] }
    {
        Waiters {
            inputs: Marks::new(alloc),
            outputs: Marks::new(alloc),
        }
    }

    /// How many inputs wait.
    pub fn inputs(&self) -> u64
        ensures { result ≡ length self.now.inputs }
    {
        self.inputs.len() as u64
    }

    /// How many outputs wait.
    pub fn outputs(&self) -> u64
        ensures { result ≡ length self.now.outputs }
    {
        self.outputs.len() as u64
    }

    /// The input that waits longest.
    pub fn first_input(&self) -> Option<Name>
        ensures { result ≡ first_of self.now.inputs }
    {
        self.inputs.first()
    }

    /// The output that waits longest.
    pub fn first_output(&self) -> Option<Name>
        ensures { result ≡ first_of self.now.outputs }
    {
        self.outputs.first()
    }

    pub(super) fn is_bare(&self) -> bool
        ensures { result ≡ is_bare self.now }
    {
        self.inputs.is_empty() && self.outputs.is_empty()
    }

    /// How many more inputs and outputs are sure to find a place.
    pub(super) fn room(&self) -> usize
        ensures { result ≡ self.now.room }
    {
        self.inputs.room().min(self.outputs.room())
    }

    pub(super) fn reserve(&mut self, more: usize) -> Result<(), Memory>
        ensures inputs { self.new.inputs ≡ self.old.inputs }
        ensures outputs { self.new.outputs ≡ self.old.outputs }
        ensures room { self.old.room ≤ self.new.room }
        ensures ok { OnOk result (more ≤ self.new.room) }
    {
        self.inputs.reserve(more)?;
        self.outputs.reserve(more)
    }

    pub(super) fn add_input(&mut self, mark: Name)
        requires { 0 < self.old.room }
        ensures inputs { self.new.inputs ≡ self.old.inputs ++ mark ∷ [] }
        ensures outputs { self.new.outputs ≡ self.old.outputs }
        ensures room { self.old.room ≤ self.new.room + 1 }
    {
        self.inputs.push(mark);
    }

    pub(super) fn add_output(&mut self, mark: Name)
        requires { 0 < self.old.room }
        ensures inputs { self.new.inputs ≡ self.old.inputs }
        ensures outputs { self.new.outputs ≡ self.old.outputs ++ mark ∷ [] }
        ensures room { self.old.room ≤ self.new.room + 1 }
    {
        self.outputs.push(mark);
    }

    pub(super) fn remove_input(&mut self, mark: Name)
        ensures inputs { self.new.inputs ≡ without self.old.inputs mark }
        ensures outputs { self.new.outputs ≡ self.old.outputs }
        ensures room { self.old.room ≤ self.new.room }
    {
        self.inputs.remove(mark);
    }

    pub(super) fn remove_output(&mut self, mark: Name)
        ensures inputs { self.new.inputs ≡ self.old.inputs }
        ensures outputs { self.new.outputs ≡ without self.old.outputs mark }
        ensures room { self.old.room ≤ self.new.room }
    {
        self.outputs.remove(mark);
    }
}
