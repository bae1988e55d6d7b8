//! The picture of a part of a run.

ghost use Rattle.std.specs.Prelude.{◌≡◌, ◌≤◌, None, length, true, IfOk};
ghost use Rattle.run_pictures.specs.declared.marks.TheConstants.{MOST_STEPS};
ghost use Rattle.picture_svg.specs.Pictures.{IsPicture};
ghost use Rattle.look_pictures.specs.Looks.{IsPart, IsPictureOfSteps};

use super::levels::unit_of;
use itoa::Buffer;
use look_words::{Level, Stretch, Wanted};
use np_calculus::{DAEMON, MAIN};
use np_io::Word;
use np_syntax::{Event, Kind, List, Made, Memory, Name, Role, Text};
use np_tables::Names;
use np_verdict::Refusal;
use picture_svg::{Binder, picture_text};
use run_pictures::{Followed, MOST_STEPS, Part, Step, part_of};
use std::alloc::Global;

/// The names of the agents that a program has from the start.
const MAIN_WORD: &[u8] = b"main";

const DAEMON_WORD: &[u8] = b"daemon";

/// A node of the source as a name.
fn key_of(node: u32) -> Name {
    Name { site: 0, n: node }
}

/// The nodes that make agents of a name.
fn nodes_named(alloc: Global, binders: &[Binder], word: &[u8]) -> Result<Names, Memory> {
    let mut nodes = Names::new(alloc);
    for binder in binders {
        if binder.name.as_slice() == word {
            nodes.insert(key_of(binder.node))?;
        }
    }
    Ok(nodes)
}

/// The agent of a name that a program of so many sites has from the start, if it is one.
fn first_named(sites: usize, word: &[u8]) -> Option<Name> {
    let site = u32::try_from(sites).unwrap_or(0);
    if word == MAIN_WORD {
        Some(Name { site, n: MAIN })
    } else if word == DAEMON_WORD {
        Some(Name { site, n: DAEMON })
    } else {
        None
    }
}

/// The agent that an event makes by one of these nodes.
fn made_by(nodes: &Names, event: &Event) -> Option<Name> {
    match (event.tag.role, event.kind, event.made) {
        (Role::Plain, Kind::Agent, Made::Two(agent, _)) if nodes.has(key_of(event.tag.node)) => {
            Some(agent)
        }
        _ => None,
    }
}

/// The agents of a name.
fn agents_named(
    alloc: Global,
    sites: usize,
    binders: &[Binder],
    steps: &[Step],
    word: &[u8],
) -> Result<Names, Memory> {
    let nodes = nodes_named(alloc, binders, word)?;
    let mut agents = Names::new(alloc);
    if let Some(agent) = first_named(sites, word) {
        agents.insert(agent)?;
    }
    for step in steps {
        if let Some(agent) = made_by(&nodes, &step.event) {
            agents.insert(agent)?;
        }
    }
    Ok(agents)
}

/// The agents that are looked at, where a name is given.
fn looked_at(
    alloc: Global,
    word: &Option<Word>,
    sites: usize,
    binders: &[Binder],
    steps: &[Step],
) -> Result<Option<Names>, Refusal> {
    let Some(word) = word else {
        return Ok(None);
    };
    let Ok(agents) = agents_named(alloc, sites, binders, steps, word.text().as_bytes()) else {
        return Err(Refusal::Memory);
    };
    if agents.is_empty() {
        Err(Refusal::Usage)
    } else {
        Ok(Some(agents))
    }
}

/// The agents, unless all is shown.
fn unless(whole: bool, agents: Option<Names>) -> Option<Names>
    ensures { whole ≡ true → result ≡ None }
{
    if whole { None } else { agents }
}

/// The part that is wanted of so many steps, where these are the agents that are looked at.
fn part_by(stretch: Stretch, count: usize, agents: Option<Names>) -> Result<Part, Refusal>
    ensures { IfOk result (IsPart stretch) }
{
    let Stretch { first, end, whole } = stretch;
    if end <= first || count <= first as usize {
        return Err(Refusal::NoLine(u32::try_from(count).unwrap_or(u32::MAX)));
    }
    let of = unless(whole, agents);
    Ok(Part { first, end, of })
}

/// How many events the level has, and of what.
fn unit_text(alloc: Global, count: usize, level: Level) -> Result<Text, Memory> {
    let mut text = List::from_slice(alloc, b" of ")?;
    text.append(Buffer::new().format(count).as_bytes())?;
    text.append(unit_of(level))?;
    Ok(text)
}

/// The picture of the steps in a part of so many.
fn drawn(
    alloc: Global,
    wanted: &Wanted,
    level: Level,
    sites: &[Text],
    binders: &[Binder],
    count: usize,
    shown: &Followed,
) -> Result<Text, Memory>
    requires { length shown.now.steps ≤ MOST_STEPS }
    ensures { IfOk result (IsPicture shown.now.steps) }
{
    let unit = unit_text(alloc, count, level)?;
    let title = wanted.file.text().as_bytes();
    picture_text(alloc, title, unit.as_slice(), sites, binders, shown)
}

/// The picture of a part of a run, by the names that the source gives, if they were found.
pub(super) fn part_shown(
    alloc: Global,
    wanted: &Wanted,
    level: Level,
    stretch: Stretch,
    sites: &List<Text>,
    binders: Result<List<Binder>, Memory>,
    run: &Followed,
) -> Result<Text, Refusal>
    ensures { IfOk result (IsPictureOfSteps stretch run.now.steps) }
{
    let Ok(binders) = binders else {
        return Err(Refusal::Memory);
    };
    let count = run.steps.len();
    if MOST_STEPS < count {
        return Err(Refusal::TooManyEvents);
    }
    let names = binders.as_slice();
    let word = &wanted.focus.agent;
    let agents = looked_at(alloc, word, sites.len(), names, run.steps.as_slice())?;
    let part = part_by(stretch, count, agents)?;
    let Ok(shown) = part_of(alloc, run, &part) else {
        return Err(Refusal::Memory);
    };
    if MOST_STEPS < shown.steps.len() {
        return Err(Refusal::TooManyEvents);
    }
    match drawn(alloc, wanted, level, sites.as_slice(), names, count, &shown) {
        Ok(text) => Ok(text),
        Err(Memory) => Err(Refusal::Memory),
    }
}
