ghost use Rattle.std.specs.Prelude.{◌≡◌, ◌<◌, ◌≤◌, ◌+◌, ◌++◌, ◌∷◌, [], length, remove, OnOk, IsOk, MatchOption};
ghost use Rattle.agent_index.specs.Lines.{without, first_of, is_none};

use np_syntax::{Memory, Name};
use std::alloc::Global;
use std::collections::VecDeque;
use std::marker::Model;

/// Marks in the order in which they came. Its `room` is how many more are sure to find a place.
#[derive(Drop)]
pub struct Marks {
    queue: VecDeque<Name>,
}

impl Model for Marks {
    ghost use Rattle.std.specs.Prelude.{◌-◌};
    ghost use Rattle.std.specs.VecDeque.{deque_len, deque_capacity};
    ghost use Rattle.agent_index.specs.Lines.{Row, row_code};

    ghost Value = { Row };

    ghost coded = { row_code };

    ghost view = { λ marks. record { items = marks.queue.items; room = deque_capacity marks.queue - deque_len marks.queue } };
}

impl Marks {
    /// No marks, which takes no memory.
    pub fn new(alloc: Global) -> Marks
        ensures { result.items ≡ [] }
    {
        Marks {
            queue: VecDeque::new(alloc),
        }
    }

    pub fn len(&self) -> usize
        ensures { result ≡ length self.now.items }
    {
        self.queue.len()
    }

    pub fn is_empty(&self) -> bool
        ensures { result ≡ is_none self.now.items }
    {
        self.queue.is_empty()
    }

    pub fn first(&self) -> Option<Name>
        ensures { result ≡ first_of self.now.items }
    {
        self.queue.front().copied()
    }

    /// How many more are sure to find a place.
    pub fn room(&self) -> usize
        ensures { result ≡ self.now.room }
    {
        self.queue.capacity() - self.queue.len()
    }

    pub fn reserve(&mut self, more: usize) -> Result<(), Memory>
        ensures items { self.new.items ≡ self.old.items }
        ensures room { self.old.room ≤ self.new.room }
        ensures ok { OnOk result (more ≤ self.new.room) }
    {
        match self.queue.reserve(more) {
            Ok(()) => Ok(()),
            Err(_) => Err(Memory),
        }
    }

    /// A mark comes last.
    pub fn push(&mut self, mark: Name)
        requires { 0 < self.old.room }
        ensures items { self.new.items ≡ self.old.items ++ mark ∷ [] }
        ensures room { self.old.room ≡ self.new.room + 1 }
    {
        self.queue.push_back_reserved(mark);
    }

    /// Takes out the first place of a mark. If the mark is the first of all, this takes no walk.
    pub fn remove(&mut self, mark: Name)
        ensures items { self.new.items ≡ without self.old.items mark }
        ensures room { self.old.room ≤ self.new.room }
    {
        if let Some(at) = position(&self.queue, mark) {
            let _ = self.queue.remove(at);
        }
    }
}

/// The first place of a mark.
fn position(queue: &VecDeque<Name>, mark: Name) -> Option<usize>
    ensures { MatchOption result (without queue.now.items mark ≡ queue.now.items)
        (λ at. (at < length queue.now.items) × (remove queue.now.items at ≡ without queue.now.items mark)) }
{
    for at in 0..queue.len() {
        if queue[at] == mark {
            return Some(at);
        }
    }
    None
}
