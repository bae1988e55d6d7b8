//! What the sites make by themselves of a choice.

ghost use Rattle.std.specs.Prelude.{◌≡◌, ◌+◌, ◌∷◌, ◌++◌, [], Some, List as Items, IfOk, OnOk};
ghost use Rattle.std.specs.FinMap as map;
ghost use Rattle.std.specs.Option.{option_map};
ghost use Rattle.np_calculus.specs.Config.{Config as OneConfig};
ghost use Rattle.np_calculus.specs.Reductions.{apply};
ghost use Rattle.np_calculus.specs.Well.{Has};
ghost use Rattle.np_syntax.specs.declared.event.Event.{Event as OneEvent};
ghost use Rattle.run_save.specs.Left.{noted_count, noted_first};
ghost use Rattle.run_choices.specs.Choices.{IsChoice};
ghost use Rattle.run_choices.specs.Held.{Lists, held};
ghost use Rattle.run_choices.specs.InTurn.{
  IsCourse,
  Serves,
  coming,
  event_in_turn,
  in_turn,
  in_turn_of,
  later_name,
  next_name,
  own_event,
  seat_of,
  site_of,
};

use super::choice::Choice;
use super::events::{Fresh, event_of};
use super::seeded::make;
use super::waiting::Waiting;
use np_calculus::Place;
use np_conditions::way;
use np_configuration::Cfg;
use np_syntax::{Event, List, Memory, Name};
use run_save::{Item, Notes};
use std::alloc::Global;

/// An agent under way arrives, and a packet lands.
fn coming(item: Item) -> Choice
    ensures { result ≡ coming item }
{
    match item {
        Item::Agent(agent) => Choice::Arrives(agent),
        Item::Packet(mark) => Choice::Lands(mark),
    }
}

/// What comes first on the link of an item to a site.
fn first_to_come(notes: &Notes, item: Item, to: u32) -> Option<Choice>
    ensures { result ≡ option_map coming (noted_first notes.now item to) }
{
    match notes.first_beside(item, to) {
        Some(first) => Some(coming(first)),
        None => None,
    }
}

/// The choice of an atom, or what comes first where its agent is under way.
fn in_turn_of(c: &Cfg, notes: &Notes, mark: Name, choice: Choice) -> Option<Choice>
    ensures { result ≡ in_turn_of c.now (noted_first notes.now) mark choice }
{
    let agent = c.atom(mark)?.agent;
    match c.place(agent)? {
        Place::At(_) => Some(choice),
        Place::Way(site) => first_to_come(notes, Item::Agent(agent), site),
    }
}

/// The choice that a choice stands for.
fn in_turn(c: &Cfg, notes: &Notes, choice: Choice) -> Option<Choice>
    ensures { result ≡ in_turn c.now (noted_first notes.now) choice }
{
    match choice {
        Choice::Arrives(agent) => first_to_come(notes, Item::Agent(agent), way(c.place(agent)?)?),
        Choice::Lands(mark) => first_to_come(notes, Item::Packet(mark), c.packet(mark)?.to),
        Choice::Acts(mark) => in_turn_of(c, notes, mark, choice),
        Choice::Meets(input, _) => in_turn_of(c, notes, input, choice),
    }
}

/// The site of an atom's agent, and 0 where there is none.
fn seat_of(c: &Cfg, mark: Name) -> u32
    ensures { result ≡ seat_of c.now mark }
{
    let Some(atom) = c.atom(mark) else {
        return 0;
    };
    match c.place(atom.agent) {
        Some(Place::At(site)) => site,
        Some(Place::Way(site)) => site,
        None => 0,
    }
}

/// The site at which a choice makes names.
fn site_of(c: &Cfg, choice: Choice) -> u32
    ensures { result ≡ site_of c.now choice }
{
    match choice {
        Choice::Arrives(_) | Choice::Lands(_) => 0,
        Choice::Acts(mark) => seat_of(c, mark),
        Choice::Meets(input, _) => seat_of(c, input),
    }
}

/// The next names of a site. A site whose names have all been made has none: this is answered as want of memory, since so many
/// events do not fit into any.
fn next_names(notes: &Notes, site: u32) -> Result<Fresh, Memory>
    ensures first { IfOk result (λ fresh. fresh.first ≡ next_name (noted_count notes.now) site) }
    ensures second { IfOk result (λ fresh. fresh.second ≡ later_name (noted_count notes.now) site) }
{
    let Ok(n) = u32::try_from(notes.count(site)) else {
        return Err(Memory);
    };
    let Some(later) = n.checked_add(1) else {
        return Err(Memory);
    };
    Ok(Fresh {
        first: Name { site, n },
        second: Name { site, n: later },
    })
}

/// The event that the sites make of a choice.
fn own_event(alloc: Global, c: &Cfg, notes: &Notes, choice: Choice) -> Result<Option<Event>, Memory>
    ensures { IfOk result (λ event. event ≡ event_in_turn c.now (noted_first notes.now) (noted_count notes.now) choice) }
{
    let Some(choice) = in_turn(c, notes, choice) else {
        return Ok(None);
    };
    let fresh = next_names(notes, site_of(c, choice))?;
    event_of(alloc, c, choice, fresh)
}

/// The same, where the events that were noted are a run that is ours.
fn served(alloc: Global, c: &Cfg, notes: &Notes, choice: Choice) -> Result<Event, Memory>
    requires course { (start : OneConfig) × (events : Items OneEvent) × IsCourse start c.now notes.now events }
    requires choice { IsChoice c.now choice }
    ensures event { IfOk result (λ event. event_in_turn c.now (noted_first notes.now) (noted_count notes.now) choice ≡ Some event) }
    ensures enabled { IfOk result (λ event. Has (apply c.now event)) }
{
    match own_event(alloc, c, notes, choice)? {
        Some(event) => Ok(event),
        None => unreachable!(),
    }
}

/// Makes the event that the sites make of a choice, lists anew what it touched, and notes it.
pub fn serve(
    alloc: Global,
    c: &mut Cfg,
    waiting: &mut Waiting,
    notes: &mut Notes,
    events: &mut List<Event>,
    choice: Choice,
) -> Result<(), Memory>
    requires course { (start : OneConfig) × IsCourse start c.old notes.old events.old }
    requires lists { Lists c.old (held waiting.old) }
    requires choice { IsChoice c.old choice }
    ensures made { OnOk result (Serves c.old c.new (noted_first notes.old) (noted_count notes.old) events.old events.new choice) }
    ensures course { OnOk result ((start : OneConfig) → IsCourse start c.old notes.old events.old
        → IsCourse start c.new notes.new events.new) }
    ensures lists { OnOk result (Lists c.new (held waiting.new)) }
{
    let event = served(alloc, c, notes, choice)?;
    make(alloc, c, waiting, events, event)?;
    notes.note(c, &event)?;
    Ok(())
}
