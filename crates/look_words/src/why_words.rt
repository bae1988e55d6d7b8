//! The words behind `why`.

ghost use Rattle.std.specs.Prelude.{IfSome};
ghost use Rattle.look_words.specs.Words.{IsWanted};

use super::words::Asked;
use np_io::Word;
use np_syntax::{List, Memory};
use std::alloc::Global;

/// The words of np behind `why --`, if these are such words.
fn words_of_np(words: &[Word]) -> Option<&[Word]> {
    match words {
        [mode, dashes, rest @ ..] if mode.text() == "why" && dashes.text() == "--" => Some(rest),
        _ => None,
    }
}

/// Copies of words.
fn copies(alloc: Global, words: &[Word]) -> Result<List<Word>, Memory> {
    let mut copied = List::new(alloc);
    for word in words {
        copied.add(Word::new(alloc, word.text())?)?;
    }
    Ok(copied)
}

/// What is asked of words of np, if these are such words.
pub(super) fn asked_of_np(alloc: Global, words: &[Word]) -> Option<Asked>
    ensures { IfSome result IsWanted }
{
    let words = words_of_np(words)?;
    match copies(alloc, words) {
        Ok(words) => Some(Asked::Np(words)),
        Err(Memory) => Some(Asked::NoMemory),
    }
}
