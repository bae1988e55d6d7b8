//! Events of atoms.

use super::absent::absent_text;
use super::form_words::{kind_for, kind_word, maker_words, process_words, role_word};
use super::names::{Seen, Wrong, name_text};
use history_conditions::{asked_agent, made_names, makes, names_wanted};
use np_calculus::Atom;
use np_syntax::{Event, Made, Memory, Name, Tag, Text};
use source_places::{filled_by, number_text};

/// What is told of a mark under which nothing stands, where a word says what was wanted.
pub(super) fn no_atom(seen: Seen<'_>, mark: Name, wanted: &[u8]) -> Result<Wrong, Memory> {
    let label = absent_text(seen, mark)?;
    let later = seen.maker_from(mark, seen.index);
    seen.early(label, seen.text(wanted)?, later)
}

/// What is told of an event at another site than the one at which the agent of its atom is.
pub(super) fn acts_elsewhere(seen: Seen<'_>, event: &Event, atom: &Atom) -> Result<Wrong, Memory> {
    let name = name_text(seen.alloc, event.actor)?;
    let wanted = seen.with(b"the site at which the agent of % is", &name)?;
    seen.alien(seen.agent_where(atom.agent)?, wanted)
}

/// What is told of an atom that makes no such events.
pub(super) fn wrong_kind(seen: Seen<'_>, event: &Event, atom: &Atom) -> Result<Wrong, Memory> {
    let form = atom.proc.form.get();
    let name = name_text(seen.alloc, event.actor)?;
    let words = b"under % stands #";
    let label = filled_by(seen.alloc, words, name.as_slice(), process_words(form))?;
    let wanted = match kind_for(form) {
        Some(kind) => filled_by(
            seen.alloc,
            b"`%`, the event of #",
            kind_word(kind),
            process_words(form),
        )?,
        None => filled_by(
            seen.alloc,
            b"an atom that is %",
            maker_words(event.kind),
            b"",
        )?,
    };
    seen.alien(label, wanted)
}

/// What is told of a node that is not the one of this tag.
pub(super) fn wrong_node(seen: Seen<'_>, tag: Tag, owner: &[u8]) -> Result<Wrong, Memory> {
    let node = number_text(seen.alloc, u64::from(tag.node))?;
    let words = b"`%`, the node of #";
    let wanted = filled_by(seen.alloc, words, node.as_slice(), owner)?;
    Ok(seen.wrong(seen.text(b"another node")?, wanted))
}

/// What is told of a role that is not the one of this tag.
pub(super) fn wrong_role(seen: Seen<'_>, tag: Tag) -> Result<Wrong, Memory> {
    let node = number_text(seen.alloc, u64::from(tag.node))?;
    let words = b"`%`, as node # has";
    let wanted = filled_by(seen.alloc, words, role_word(tag.role), node.as_slice())?;
    Ok(seen.wrong(seen.text(b"another role")?, wanted))
}

/// What is told of an event that takes an output and should take none, or the other way round.
pub(super) fn wrong_other(seen: Seen<'_>, event: &Event) -> Result<Wrong, Memory> {
    match event.other {
        Some(_) => {
            let wanted = seen.text(b"`-`, since only Comm and Rep take an output")?;
            Ok(seen.wrong(seen.text(b"a name")?, wanted))
        }
        None => {
            let wanted = seen.text(b"the mark of the output that is taken")?;
            Ok(seen.wrong(seen.text(b"none")?, wanted))
        }
    }
}

/// How many names an event makes.
fn made_count(event: &Event) -> u32 {
    match event.made {
        Made::Nothing => 0,
        Made::One(_) => 1,
        Made::Two(_, _) => 2,
    }
}

/// So many names.
fn names_words(count: u32) -> (&'static [u8], &'static [u8]) {
    match count {
        0 => (b"0 names", b"no name"),
        1 => (b"1 name", b"one name"),
        _ => (b"2 names", b"two names"),
    }
}

/// What is told of an event that makes too few or too many names.
pub(super) fn wrong_count(seen: Seen<'_>, event: &Event) -> Result<Wrong, Memory> {
    let asked = asked_agent(seen.alloc, seen.reached, event)?;
    let wanted = names_wanted(seen.alloc, seen.reached, event)?;
    let mut words = seen.text(names_words(wanted).1)?;
    if let Some(agent) = asked {
        words.append(b", since ")?;
        words.append(seen.agent_where(agent)?.as_slice())?;
    }
    Ok(seen.wrong(seen.text(names_words(made_count(event)).0)?, words))
}

/// Where a name comes from that is not new.
fn born_text(seen: Seen<'_>, name: Name) -> Result<Text, Memory> {
    let before = seen.events.get(..seen.index).unwrap_or(&[]);
    for index in 0..before.len() {
        if makes(before[index].made, name) {
            let line = seen.line_text(index)?;
            return seen.with(b"made in %", &line);
        }
    }
    seen.text(b"one of the program's own names")
}

/// What is told of a name that is not new.
fn not_new(seen: Seen<'_>, name: Option<Name>) -> Result<Wrong, Memory> {
    let label = match name {
        Some(name) => born_text(seen, name)?,
        None => seen.text(b"no name")?,
    };
    Ok(seen.wrong(label, seen.text(b"a name that is new")?))
}

/// What is told of a first name that is not new.
pub(super) fn first_not_new(seen: Seen<'_>, event: &Event) -> Result<Wrong, Memory> {
    not_new(seen, made_names(event.made).0)
}

/// What is told of a second name that is not new.
pub(super) fn second_not_new(seen: Seen<'_>, event: &Event) -> Result<Wrong, Memory> {
    not_new(seen, made_names(event.made).1)
}

/// What is told of one name that is made twice.
pub(super) fn same_name_twice(seen: Seen<'_>) -> Result<Wrong, Memory> {
    let wanted = seen.text(b"two names that differ")?;
    Ok(seen.wrong(seen.text(b"the same name twice")?, wanted))
}

/// What is told of an atom that is taken and is no output.
pub(super) fn no_output(seen: Seen<'_>, output: &Atom) -> Result<Wrong, Memory> {
    let form = output.proc.form.get();
    let label = filled_by(seen.alloc, b"under it stands %", process_words(form), b"")?;
    seen.alien(label, seen.text(b"the mark of an output")?)
}

/// What is told of an output that stands in another agent.
pub(super) fn other_agent(seen: Seen<'_>, atom: &Atom, output: &Atom) -> Result<Wrong, Memory> {
    let label = seen.with(b"it stands in %", &seen.agent_text(output.agent)?)?;
    let wanted = seen.with(b"an output in %", &seen.agent_text(atom.agent)?)?;
    Ok(seen.wrong(label, wanted))
}

/// What is told of an output on another channel.
pub(super) fn other_channel(seen: Seen<'_>) -> Result<Wrong, Memory> {
    let label = seen.text(b"an output on another channel")?;
    Ok(seen.wrong(label, seen.text(b"an output on the channel of the input")?))
}
