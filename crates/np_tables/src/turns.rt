ghost use Rattle.std.specs.Prelude.{◌≡◌, [], ◌∷◌, MatchOption};
ghost use Rattle.np_tables.specs.Queues.{Queues};
ghost use Rattle.np_tables.specs.declared.turns.Turn.TheVariants as turn;

use super::errand::Meeting;
use indexmap::IndexMap;
use np_syntax::Name;
use std::alloc::Global;
use std::collections::VecDeque;

/// Who is to be served: a mark that acts alone, or the next two of a meeting.
#[derive(Clone, Copy, PartialEq, Eq)]
pub enum Turn {
    Alone(Name),
    Meets(Meeting),
}

/// The turns in the order of their coming. A turn may be missing, for want of memory, or stand though there is
/// nothing to be served. A meeting has one turn at most.
pub struct Turns {
    queue: VecDeque<Turn>,
    waiting: IndexMap<Meeting, ()>,
}

impl Drop for Turns {
    fn drop(self) {
        let Turns {
            queue: _,
            waiting: _,
        } = self;
    }
}

impl Turns {
    pub fn new(alloc: Global) -> Turns
        ensures { result.queue.items ≡ [] }
    {
        Turns {
            queue: VecDeque::new(alloc),
            waiting: IndexMap::new(alloc),
        }
    }

    /// A turn for a mark that acts alone.
    pub fn alone(&mut self, mark: Name)
        ensures { Queues self.old.queue.items self.new.queue.items (turn.Alone mark) }
    {
        let _ = self.queue.push_back(Turn::Alone(mark));
    }

    /// A turn for a meeting that has none.
    pub fn meets(&mut self, meeting: Meeting)
        ensures { Queues self.old.queue.items self.new.queue.items (turn.Meets meeting) }
    {
        if let Ok(None) = self.waiting.insert(meeting, ()) {
            self.again(meeting);
        }
    }

    /// Another turn for a meeting whose turn was taken.
    pub fn again(&mut self, meeting: Meeting)
        ensures { Queues self.old.queue.items self.new.queue.items (turn.Meets meeting) }
    {
        if self.queue.push_back(Turn::Meets(meeting)).is_err() {
            let _ = self.waiting.swap_remove(&meeting);
        }
    }

    /// Takes the first turn. Its meeting gets another turn by `again` alone, until it is forgotten.
    pub fn pop(&mut self) -> Option<Turn>
        ensures { MatchOption result (self.old.queue.items ≡ []) (λ first. self.old.queue.items ≡ first ∷ self.new.queue.items) }
    {
        self.queue.pop_front()
    }

    /// Gives up a turn that was taken.
    pub fn forget(&mut self, turn: Turn)
        ensures { self.new.queue ≡ self.old.queue }
    {
        if let Turn::Meets(meeting) = turn {
            let _ = self.waiting.swap_remove(&meeting);
        }
    }
}
