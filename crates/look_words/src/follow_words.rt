//! The words of the mode `follow`.

ghost use Rattle.look_words.specs.Words.{IsWanted};

use super::words::Asked;
use clap::ArgMatches;
use np_io::Word;
use np_syntax::Memory;
use std::alloc::Global;

/// The high text that is to be followed from the start of a source.
#[derive(Drop)]
pub struct Following {
    pub file: Word,
    pub high: Word,
}

/// The file and the high text.
fn files_of(alloc: Global, found: &ArgMatches<'_>) -> Result<Following, Memory> {
    let file = Word::new(alloc, found.get_str("FILE").unwrap_or(""))?;
    let high = Word::new(alloc, found.get_str("HIGH").unwrap_or(""))?;
    Ok(Following { file, high })
}

/// What the words behind `follow` ask for.
pub fn asked_follow(alloc: Global, found: &ArgMatches<'_>) -> Asked
    ensures { IsWanted result }
{
    match files_of(alloc, found) {
        Ok(following) => Asked::Follow(following),
        Err(Memory) => Asked::NoMemory,
    }
}
