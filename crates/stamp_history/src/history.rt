ghost use Rattle.std.specs.Prelude.{◌≡◌, ◌≢◌, ◌<◌, ◌≤◌, ◌+◌, [], ◌∷◌, ◌++◌, length, IfOk, OnOk, vec_len};
ghost use Rattle.std.specs.Vec.{vec_capacity};
ghost use Rattle.np_syntax.specs.declared.event.Kind.TheVariants as kind;
ghost use Rattle.stamp_history.specs.Histories.{IsHistory, IsAboveLast, without_events, with_event, with_said};

use super::stamped::Stamped;
use np_syntax::{Event, Kind, Memory, Value};
use std::alloc::Global;
use std::marker::Model;

/// The events of a site in the order in which it made them, and the values that it printed. There is room for as many
/// events as the budget from the start, so that recording one takes no memory. `spare` is for how many more values there
/// is room.
pub struct History {
    site: u32,
    budget: u32,
    events: Vec<Stamped>,
    said: Vec<Value>,
}

impl Drop for History {
    fn drop(self) {
        let History {
            site: _,
            budget: _,
            events: _,
            said: _,
        } = self;
    }
}

impl Model for History {
    ghost use Rattle.std.specs.Prelude.{◌-◌, vec_len};
    ghost use Rattle.std.specs.Vec.{vec_capacity};
    ghost use Rattle.stamp_history.specs.Histories.{Stored, stored_code, IsRoomy};

    ghost Value = { Stored };

    ghost coded = { stored_code };

    ghost view = { λ h. record {
      history = record { site = h.site; budget = h.budget; events = h.events.items; said = h.said.items };
      spare = vec_capacity h.said - vec_len h.said;
    } };

    ghost invariant = { λ h. IsRoomy (record { site = h.site; budget = h.budget; events = h.events.items; said = h.said.items })
        (vec_capacity h.events) };
}

impl History {
    /// A history with no events and no room for a value.
    pub fn new(alloc: Global, site: u32, budget: u32) -> Result<History, Memory>
        ensures { IfOk result (λ new. new.history ≡ without_events site budget) }
    {
        let events = Vec::with_capacity(alloc, budget as usize)?;
        Ok(History {
            site,
            budget,
            events,
            said: Vec::new(alloc),
        })
    }

    /// Records an event that prints nothing.
    pub fn push(&mut self, stamp: u64, event: Event)
        requires room { length self.old.history.events < self.old.history.budget }
        requires stamp { IsAboveLast self.old.history.events stamp }
        requires kind { event.kind ≢ kind.Print }
        ensures history { self.new.history ≡ with_event self.old.history (record { stamp = stamp; event = event }) }
        ensures spare { self.new.spare ≡ self.old.spare }
    {
        put_last(&mut self.events, Stamped { stamp, event });
    }

    /// Makes room for one more value.
    pub fn room_to_say(&mut self) -> Result<(), Memory>
        ensures history { self.new.history ≡ self.old.history }
        ensures spare { self.old.spare ≤ self.new.spare }
        ensures ok { OnOk result (0 < self.new.spare) }
    {
        match self.said.reserve(1) {
            Ok(()) => Ok(()),
            Err(_) => Err(Memory),
        }
    }

    /// Records a Print with the value that it prints.
    pub fn push_print(&mut self, stamp: u64, event: Event, value: Value)
        requires room { length self.old.history.events < self.old.history.budget }
        requires stamp { IsAboveLast self.old.history.events stamp }
        requires kind { event.kind ≡ kind.Print }
        requires spare { 0 < self.old.spare }
        ensures history { self.new.history ≡ with_said (with_event self.old.history (record { stamp = stamp; event = event })) value }
        ensures spare { self.old.spare ≤ self.new.spare + 1 }
    {
        put_last(&mut self.events, Stamped { stamp, event });
        put_last(&mut self.said, value);
    }

    /// How many events there are.
    pub fn len(&self) -> u32
        ensures len { result ≡ length self.now.history.events }
        ensures history { IsHistory self.now.history }
    {
        self.events.len() as u32
    }

    pub fn site(&self) -> u32
        ensures { result ≡ self.now.history.site }
    {
        self.site
    }

    pub fn events(&self) -> &[Stamped]
        ensures events { result.now ≡ self.now.history.events }
        ensures history { IsHistory self.now.history }
    {
        self.events.as_slice()
    }

    /// The printed values, one for each Print in the order of the events.
    pub fn said(&self) -> &[Value]
        ensures said { result.now ≡ self.now.history.said }
        ensures history { IsHistory self.now.history }
    {
        self.said.as_slice()
    }
}

/// Appends an item where there is room.
fn put_last<T: Drop>(items: &mut Vec<T>, item: T)
    requires { vec_len items.old < vec_capacity items.old }
    ensures items { items.new.items ≡ items.old.items ++ item ∷ [] }
    ensures room { vec_capacity items.old ≤ vec_capacity items.new }
{
    match items.push(item) {
        Ok(()) => {}
        Err(_) => unreachable!(),
    }
}
