ghost use Rattle.std.specs.Prelude.{◌≡◌, ◌<◌, ◌-◌, length, [], ◌∷◌, false, true, MatchOption, IfSome, IsTrue, ◌↔◌};
ghost use Rattle.site_agents.specs.Queues.{listed, waits, ComesLast, StandsAt, Leaves, Keeps, KeepsBut};

use np_syntax::{Memory, Name};
use std::alloc::Global;
use std::collections::VecDeque;
use std::marker::Model;

/// Names that wait, first come first served. Where there was no room for one, it is said that one is missing.
pub struct Queue {
    names: VecDeque<Name>,
    lost: bool,
}

impl Drop for Queue {
    fn drop(self) {
        let Queue { names: _, lost: _ } = self;
    }
}

impl Model for Queue {
    ghost use Rattle.site_agents.specs.Queues.{Waiting, waiting_code};

    ghost Value = { Waiting };

    ghost coded = { waiting_code };

    ghost view = { λ queue. record { names = queue.names.items; lost = queue.lost } };
}

impl Queue {
    /// No names, which takes no memory.
    pub fn new(alloc: Global) -> Queue
        ensures names { result.names ≡ [] }
        ensures lost { result.lost ≡ false }
    {
        Queue {
            names: VecDeque::new(alloc),
            lost: false,
        }
    }

    /// Whether a name may be missing.
    pub fn is_lost(&self) -> bool
        ensures { result ≡ self.now.lost }
    {
        self.lost
    }

    /// Makes sure of room for so many names in all.
    pub fn reserve(&mut self, all: usize) -> Result<(), Memory>
        ensures { self.new ≡ self.old }
    {
        let more = all.saturating_sub(self.names.len());
        match self.names.reserve(more) {
            Ok(()) => Ok(()),
            Err(_) => Err(Memory),
        }
    }

    /// A name comes last.
    pub fn push(&mut self, name: Name)
        ensures last { ComesLast name self.old self.new }
        ensures waits { waits self.new name ≡ true }
        ensures keeps { Keeps self.old self.new }
    {
        if self.names.push_back(name).is_err() {
            self.lost = true;
        }
    }

    /// Takes the first name.
    pub fn pop(&mut self) -> Option<Name>
        ensures first { MatchOption result ((self.old.names ≡ []) × (self.new ≡ self.old)) (λ first. KeepsBut first self.old self.new) }
        ensures order { IfSome result (λ first. self.old ≡ record self.new { names = first ∷ self.new.names }) }
        ensures fewer { IfSome result (λ first. length self.new.names < length self.old.names) }
    {
        self.names.pop_front()
    }

    /// A name goes, wherever it stands. One that came last is found at once.
    pub fn leave(&mut self, name: Name)
        ensures gone { Leaves name self.old self.new }
        ensures keeps { KeepsBut name self.old self.new }
    {
        if let Some(at) = place_of(&self.names, name) {
            let _ = self.names.remove(at);
        }
    }
}

/// Whether the name stands last.
fn is_last(names: &VecDeque<Name>, name: Name) -> bool
    ensures { IsTrue result ↔ StandsAt names.now.items (length names.now.items - 1) name }
{
    match names.back() {
        Some(last) => *last == name,
        None => false,
    }
}

/// A place at which the name stands. The last is looked at first.
fn place_of(names: &VecDeque<Name>, name: Name) -> Option<usize>
    ensures { MatchOption result (listed names.now.items name ≡ false) (λ at. StandsAt names.now.items at name) }
{
    if is_last(names, name) {
        return Some(names.len() - 1);
    }
    for at in 0..names.len() {
        if names[at] == name {
            return Some(at);
        }
    }
    None
}
