//! The command line, read by clap.

ghost use Rattle.std.specs.Prelude.{◌≡◌, ◌≤◌, IfOk, IfSome};
ghost use Rattle.np_syntax.specs.declared.limits.TheConstants.{LARGEST_BUDGET};
ghost use Rattle.look_words.specs.Words.{IsWanted};

use super::follow_words::{Following, asked_follow};
use super::modes::command;
use super::page_words::{PageWanted, asked_page};
use super::part_words::{Focus, Stretch, focus_by, view_by};
use super::run_words::{Several, Single, asked_run, asked_runs, seed_there};
use super::why_words::asked_of_np;
use clap::{ArgMatches, Error};
use np_io::Word;
use np_syntax::{LARGEST_BUDGET, List, Memory, USUAL_BUDGET};
use np_words::Infrastructure;
use std::alloc::Global;

/// Which level of a run is looked at: what the source says, or what the sites do.
#[derive(Clone, Copy)]
pub enum Level {
    High,
    Low,
}

/// What is shown: one level, a part of one, or both side by side.
#[derive(Clone, Copy)]
pub enum View {
    One(Level),
    Part(Level, Stretch),
    Both,
}

/// The picture that is wanted: of a history of a source, or of a run of it that has at most so many events, by a seed or without one.
#[derive(Drop)]
pub struct Wanted {
    pub file: Word,
    pub history: Option<Word>,
    pub view: View,
    pub focus: Focus,
    pub infrastructure: Infrastructure,
    pub budget: u32,
    pub seed: Option<u64>,
}

/// What is to be told: the refusal of a source, or of a history of it; or what a word names that stands in its place.
#[derive(Drop)]
pub struct Question {
    pub file: Word,
    pub history: Option<Word>,
    pub infrastructure: Infrastructure,
}

/// What the words ask for, or what clap has to say of them. `Np` are words of np behind `why --`. `Usage` is a number that is none, a
/// part of both levels, or a history together with a seed.
#[derive(Drop)]
pub enum Asked {
    Work(Wanted),
    Page(PageWanted),
    Why(Question),
    Run(Single),
    Runs(Several),
    Follow(Following),
    Np(List<Word>),
    Log(Question),
    Said(Error),
    Usage,
    NoMemory,
}

/// Whether an option without a value was given.
pub(super) fn is_set(found: &ArgMatches<'_>, id: &str) -> bool {
    match found.get_str(id) {
        Some(text) => text == "true",
        None => false,
    }
}

/// The budget that a word says.
pub(super) fn budget_of(word: Option<&str>) -> Option<u32>
    ensures { IfSome result (λ budget. budget ≤ LARGEST_BUDGET) }
{
    let Some(word) = word else {
        return Some(USUAL_BUDGET);
    };
    match word.parse::<u32>() {
        Ok(budget) if 1 <= budget && budget <= LARGEST_BUDGET => Some(budget),
        _ => None,
    }
}

pub(super) fn level_of(word: Option<&str>) -> Level {
    match word {
        Some("high") => Level::High,
        _ => Level::Low,
    }
}

/// What is shown, or nothing where a part of both levels is asked for.
fn view_of(found: &ArgMatches<'_>) -> Option<View> {
    match found.get_str("level") {
        Some("high") => Some(view_by(found, Level::High)),
        Some("both") => match view_by(found, Level::Low) {
            View::One(_) => Some(View::Both),
            _ => None,
        },
        _ => Some(view_by(found, Level::Low)),
    }
}

pub(super) fn infrastructure_of(word: Option<&str>) -> Infrastructure {
    match word {
        Some("cache") => Infrastructure::Cache,
        _ => Infrastructure::Central,
    }
}

/// A copy of a word, if there is one.
pub(super) fn further_word(alloc: Global, word: Option<&str>) -> Result<Option<Word>, Memory> {
    match word {
        Some(word) => Ok(Some(Word::new(alloc, word)?)),
        None => Ok(None),
    }
}

/// What the words behind `picture` ask for, with this budget, seed and view.
fn wanted_by(
    alloc: Global,
    found: &ArgMatches<'_>,
    budget: u32,
    seed: Option<u64>,
    view: View,
) -> Result<Wanted, Memory>
    ensures { IfOk result (λ wanted. wanted.budget ≡ budget) }
{
    let file = Word::new(alloc, found.get_str("FILE").unwrap_or(""))?;
    let history = further_word(alloc, found.get_str("HISTORY"))?;
    Ok(Wanted {
        file,
        history,
        view,
        focus: focus_by(alloc, found)?,
        infrastructure: infrastructure_of(found.get_str("infra")),
        budget,
        seed,
    })
}

/// What the words behind `why` ask for.
fn question_of(alloc: Global, found: &ArgMatches<'_>) -> Result<Question, Memory> {
    let file = Word::new(alloc, found.get_str("FILE").unwrap_or(""))?;
    let history = further_word(alloc, found.get_str("HISTORY"))?;
    Ok(Question {
        file,
        history,
        infrastructure: infrastructure_of(found.get_str("infra")),
    })
}

fn asked_why(alloc: Global, found: &ArgMatches<'_>) -> Asked
    ensures { IsWanted result }
{
    match question_of(alloc, found) {
        Ok(question) => Asked::Why(question),
        Err(Memory) => Asked::NoMemory,
    }
}

fn asked_log(alloc: Global, found: &ArgMatches<'_>) -> Asked
    ensures { IsWanted result }
{
    match question_of(alloc, found) {
        Ok(question) => Asked::Log(question),
        Err(Memory) => Asked::NoMemory,
    }
}

/// Whether both a history and the seed of a run are given, of which one run cannot be.
pub(super) fn has_both(found: &ArgMatches<'_>) -> bool {
    found.get_str("HISTORY").is_some() && found.get_str("seed").is_some()
}

fn asked_of(alloc: Global, found: &ArgMatches<'_>) -> Asked
    ensures { IsWanted result }
{
    let Some(budget) = budget_of(found.get_str("budget")) else {
        return Asked::Usage;
    };
    let Some(seed) = seed_there(found.get_str("seed")) else {
        return Asked::Usage;
    };
    let Some(view) = view_of(found) else {
        return Asked::Usage;
    };
    if has_both(found) {
        return Asked::Usage;
    }
    match wanted_by(alloc, found, budget, seed, view) {
        Ok(wanted) => Asked::Work(wanted),
        Err(Memory) => Asked::NoMemory,
    }
}

/// What the words ask for.
pub fn asked_by(alloc: Global, words: &[Word]) -> Asked
    ensures { IsWanted result }
{
    if let Some(asked) = asked_of_np(alloc, words) {
        return asked;
    }
    let Ok(command) = command(alloc) else {
        return Asked::NoMemory;
    };
    match command.try_get_matches_from(words) {
        Ok(matches) => match matches.subcommand() {
            Some(("why", found)) => asked_why(alloc, found),
            Some(("run", found)) => asked_run(alloc, found),
            Some(("runs", found)) => asked_runs(alloc, found),
            Some(("follow", found)) => asked_follow(alloc, found),
            Some(("page", found)) => asked_page(alloc, found),
            Some(("shiviz", found)) => asked_log(alloc, found),
            Some((_, found)) => asked_of(alloc, found),
            None => Asked::Usage,
        },
        Err(error) => Asked::Said(error),
    }
}
