//! The words of `picture` for long runs.

use super::words::{Level, View};
use clap::ArgMatches;
use np_io::Word;
use np_syntax::Memory;
use std::alloc::Global;

/// The events from a number on and before another, counted from 0. `whole` says that all of them are shown, and not only what
/// concerns an agent.
#[derive(Clone, Copy)]
pub struct Stretch {
    pub first: u32,
    pub end: u32,
    pub whole: bool,
}

/// The name of the agents that are looked at, and the printed line whose past is strong, where they are given.
#[derive(Drop)]
pub struct Focus {
    pub agent: Option<Word>,
    pub past: Option<u32>,
}

/// What the options ask to be shown of a level.
pub fn view_by(found: &ArgMatches<'_>, level: Level) -> View {
    let from = found.get_one::<u32>("from");
    let to = found.get_one::<u32>("to");
    let whole = found.get_str("agent").is_none();
    if from.is_none() && to.is_none() && whole {
        return View::One(level);
    }
    View::Part(
        level,
        Stretch {
            first: from.unwrap_or(1).saturating_sub(1),
            end: to.unwrap_or(u32::MAX),
            whole,
        },
    )
}

/// Whom and what the options look at.
pub fn focus_by(alloc: Global, found: &ArgMatches<'_>) -> Result<Focus, Memory> {
    let agent = match found.get_str("agent") {
        Some(word) => Some(Word::new(alloc, word)?),
        None => None,
    };
    Ok(Focus {
        agent,
        past: found.get_one::<u32>("past"),
    })
}
