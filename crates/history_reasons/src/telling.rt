//! What is told of each condition that an event fails.

use super::acting::{
    acts_elsewhere, first_not_new, no_atom, no_output, other_agent, other_channel, same_name_twice,
    second_not_new, wrong_count, wrong_kind, wrong_node, wrong_other, wrong_role,
};
use super::moving::{arrives_elsewhere, lands_elsewhere, no_packet, no_traveller};
use super::names::{Seen, Wrong};
use history_conditions::Condition;
use np_calculus::Place;
use np_syntax::{Event, Kind, Memory, Role, Tag};

/// What is told where what stands there does not say more.
fn not_possible(seen: Seen<'_>) -> Result<Wrong, Memory> {
    let wanted = seen.text(b"an event of this kind")?;
    seen.alien(seen.text(b"not possible here")?, wanted)
}

/// What is told where what acts is not there.
fn no_actor(seen: Seen<'_>, event: &Event) -> Result<Wrong, Memory> {
    match event.kind {
        Kind::Arrive => no_traveller(seen, event),
        Kind::Land => no_packet(seen, event),
        _ => no_atom(seen, event.actor, b"the mark of an atom"),
    }
}

/// What is told of an event at another site than that of what acts.
fn elsewhere(seen: Seen<'_>, event: &Event) -> Result<Wrong, Memory> {
    match event.kind {
        Kind::Arrive => match seen.reached.place(event.actor) {
            Some(Place::Way(to)) => arrives_elsewhere(seen, event, to),
            _ => not_possible(seen),
        },
        Kind::Land => match seen.reached.packet(event.actor) {
            Some(packet) => lands_elsewhere(seen, event, packet.to),
            None => not_possible(seen),
        },
        _ => match seen.reached.atom(event.actor) {
            Some(atom) => acts_elsewhere(seen, event, atom),
            None => not_possible(seen),
        },
    }
}

/// What is told of an event of another kind than those of its atom.
fn other_kind(seen: Seen<'_>, event: &Event) -> Result<Wrong, Memory> {
    match seen.reached.atom(event.actor) {
        Some(atom) => wrong_kind(seen, event, atom),
        None => not_possible(seen),
    }
}

/// The tag that an event is to have, and whose it is.
fn owner(seen: Seen<'_>, event: &Event) -> (Tag, &'static [u8]) {
    let plain = Tag {
        node: 0,
        role: Role::Plain,
    };
    match event.kind {
        Kind::Arrive => (plain, b"an Arrive"),
        Kind::Land => match seen.reached.packet(event.actor) {
            Some(packet) => (packet.tag, b"the packet"),
            None => (plain, b"the packet"),
        },
        _ => match seen.reached.atom(event.actor) {
            Some(atom) => (atom.proc.tag, b"the atom"),
            None => (plain, b"the atom"),
        },
    }
}

/// What is told of an output that cannot be taken.
fn wrong_output(seen: Seen<'_>, event: &Event, condition: Condition) -> Result<Wrong, Memory> {
    let Some(other) = event.other else {
        return not_possible(seen);
    };
    let Some(output) = seen.reached.atom(other) else {
        return no_atom(seen, other, b"the mark of an output");
    };
    let Some(atom) = seen.reached.atom(event.actor) else {
        return not_possible(seen);
    };
    match condition {
        Condition::IsInAgent => other_agent(seen, atom, output),
        Condition::IsOnChannel => other_channel(seen),
        _ => no_output(seen, output),
    }
}

/// What is told of a condition that an event fails.
pub(super) fn told_of(
    seen: Seen<'_>,
    event: &Event,
    condition: Condition,
) -> Result<Wrong, Memory> {
    match condition {
        Condition::ActorStands => no_actor(seen, event),
        Condition::IsAtSite => elsewhere(seen, event),
        Condition::IsOfKind => other_kind(seen, event),
        Condition::HasNode => {
            let (tag, whose) = owner(seen, event);
            wrong_node(seen, tag, whose)
        }
        Condition::HasRole => wrong_role(seen, owner(seen, event).0),
        Condition::NamesOutput => wrong_other(seen, event),
        Condition::MakesFirst | Condition::MakesSecond => wrong_count(seen, event),
        Condition::FirstIsNew => first_not_new(seen, event),
        Condition::SecondIsNew => second_not_new(seen, event),
        Condition::NamesDiffer => same_name_twice(seen),
        Condition::OutputStands
        | Condition::IsOutput
        | Condition::IsInAgent
        | Condition::IsOnChannel => wrong_output(seen, event, condition),
        Condition::OperandsFit => not_possible(seen),
    }
}
