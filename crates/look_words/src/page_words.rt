//! The words of the mode `page`.

ghost use Rattle.std.specs.Prelude.{◌≡◌, IfOk};
ghost use Rattle.look_words.specs.Words.{IsWanted};

use super::run_words::seed_there;
use super::words::{Asked, budget_of, further_word, has_both, infrastructure_of};
use clap::ArgMatches;
use np_io::Word;
use np_syntax::Memory;
use np_words::Infrastructure;
use std::alloc::Global;

/// The page that is wanted: of a history of a source, or of a run of it that has at most so many events, by a seed or without one.
#[derive(Drop)]
pub struct PageWanted {
    pub file: Word,
    pub history: Option<Word>,
    pub infrastructure: Infrastructure,
    pub budget: u32,
    pub seed: Option<u64>,
}

/// What the words behind `page` ask for, with this budget and seed.
fn wanted_by(
    alloc: Global,
    found: &ArgMatches<'_>,
    budget: u32,
    seed: Option<u64>,
) -> Result<PageWanted, Memory>
    ensures { IfOk result (λ wanted. wanted.budget ≡ budget) }
{
    let file = Word::new(alloc, found.get_str("FILE").unwrap_or(""))?;
    let history = further_word(alloc, found.get_str("HISTORY"))?;
    Ok(PageWanted {
        file,
        history,
        infrastructure: infrastructure_of(found.get_str("infra")),
        budget,
        seed,
    })
}

pub(super) fn asked_page(alloc: Global, found: &ArgMatches<'_>) -> Asked
    ensures { IsWanted result }
{
    let Some(budget) = budget_of(found.get_str("budget")) else {
        return Asked::Usage;
    };
    let Some(seed) = seed_there(found.get_str("seed")) else {
        return Asked::Usage;
    };
    if has_both(found) {
        return Asked::Usage;
    }
    match wanted_by(alloc, found, budget, seed) {
        Ok(wanted) => Asked::Page(wanted),
        Err(Memory) => Asked::NoMemory,
    }
}
