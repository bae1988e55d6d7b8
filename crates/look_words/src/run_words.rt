//! The words of the modes `run` and `runs`.

ghost use Rattle.std.specs.Prelude.{◌≤◌, IfSome};
ghost use Rattle.np_syntax.specs.declared.limits.TheConstants.{LARGEST_BUDGET};
ghost use Rattle.look_words.specs.Words.{IsWanted};
ghost use Rattle.look_words.specs.declared.run_words.TheConstants.{MOST_RUNS};

use super::words::{Asked, Level, budget_of, infrastructure_of, is_set, level_of};
use clap::ArgMatches;
use np_io::Word;
use np_syntax::Memory;
use np_words::Infrastructure;
use std::alloc::Global;

/// How many runs `runs` makes where the words do not say it.
const USUAL_RUNS: u32 = 100;

/// The largest number of runs that the words may say.
pub const MOST_RUNS: u32 = 1_000_000;

/// Which run of a source is made: each event is chosen by a generator of this seed.
#[derive(Clone, Copy)]
pub struct Way {
    pub seed: u64,
    pub level: Level,
    pub infrastructure: Infrastructure,
    pub budget: u32,
}

/// The run of a source that is wanted, with its history or without it.
#[derive(Drop)]
pub struct Single {
    pub file: Word,
    pub way: Way,
    pub history: bool,
}

/// The runs of a source that are wanted: so many, of the seeds from that of the way on.
#[derive(Drop)]
pub struct Several {
    pub file: Word,
    pub way: Way,
    pub runs: u32,
    pub unordered: bool,
}

/// The seed that a word says.
pub fn seed_of(word: Option<&str>, usual: u64) -> Option<u64> {
    match word {
        Some(word) => match word.parse::<u64>() {
            Ok(seed) => Some(seed),
            Err(_) => None,
        },
        None => Some(usual),
    }
}

/// The seed that stands there, if one does; nothing where it is no number.
pub fn seed_there(word: Option<&str>) -> Option<Option<u64>> {
    match word {
        Some(word) => match word.parse::<u64>() {
            Ok(seed) => Some(Some(seed)),
            Err(_) => None,
        },
        None => Some(None),
    }
}

/// The number of runs that a word says.
fn runs_of(word: Option<&str>) -> Option<u32>
    ensures { IfSome result (λ runs. runs ≤ MOST_RUNS) }
{
    let Some(word) = word else {
        return Some(USUAL_RUNS);
    };
    match word.parse::<u32>() {
        Ok(runs) if 1 <= runs && runs <= MOST_RUNS => Some(runs),
        _ => None,
    }
}

/// The way that the words say, whose seed stands behind this option.
fn way_of(found: &ArgMatches<'_>, option: &str, usual: u64) -> Option<Way>
    ensures { IfSome result (λ way. way.budget ≤ LARGEST_BUDGET) }
{
    let seed = seed_of(found.get_str(option), usual)?;
    let budget = budget_of(found.get_str("budget"))?;
    Some(Way {
        seed,
        level: level_of(found.get_str("level")),
        infrastructure: infrastructure_of(found.get_str("infra")),
        budget,
    })
}

/// What the words behind `run` ask for.
pub fn asked_run(alloc: Global, found: &ArgMatches<'_>) -> Asked
    ensures { IsWanted result }
{
    let Some(way) = way_of(found, "seed", 0) else {
        return Asked::Usage;
    };
    match Word::new(alloc, found.get_str("FILE").unwrap_or("")) {
        Ok(file) => Asked::Run(Single {
            file,
            way,
            history: is_set(found, "history"),
        }),
        Err(Memory) => Asked::NoMemory,
    }
}

/// What the words behind `runs` ask for.
pub fn asked_runs(alloc: Global, found: &ArgMatches<'_>) -> Asked
    ensures { IsWanted result }
{
    let Some(way) = way_of(found, "from", 1) else {
        return Asked::Usage;
    };
    let Some(runs) = runs_of(found.get_str("runs")) else {
        return Asked::Usage;
    };
    match Word::new(alloc, found.get_str("FILE").unwrap_or("")) {
        Ok(file) => Asked::Runs(Several {
            file,
            way,
            runs,
            unordered: is_set(found, "unordered"),
        }),
        Err(Memory) => Asked::NoMemory,
    }
}
