//! What is told of files.

ghost use Rattle.std.specs.Prelude.{◌≤◌, length, IfErr, IfOk};
ghost use Rattle.look_reasons.specs.Unread.{IsUnread};

use super::histories::{Compiled, History, Purpose, of_history};
use super::naming::{explained, named};
use super::sources::{lowered, source_told, told};
use np_histories::LONGEST_HISTORY;
use np_io::{ReadFail, Texts, Word, read_all};
use np_syntax::{LONGEST_SOURCE, List, Memory};
use np_verdict::Refusal;
use np_words::Infrastructure;
use refusal_diagnoses::{Told, judged, told_of};
use source_places::{Reasons, without_marks};
use std::alloc::Global;

/// The bytes of a text, which has at most `limit` of them. `long` is the refusal of one with more.
pub(super) fn read_text<T: Texts>(
    alloc: Global,
    texts: &mut T,
    name: &Word,
    limit: usize,
    long: Refusal,
) -> Result<List<u8>, Refusal>
    ensures { IfOk result (λ bytes. length bytes ≤ limit) }
{
    match read_all(alloc, texts, name, limit) {
        Ok(bytes) => Ok(bytes),
        Err(ReadFail::Memory) => Err(Refusal::Memory),
        Err(ReadFail::ReadFault) => Err(Refusal::ReadFault),
        Err(ReadFail::TooLong) => Err(long),
    }
}

/// What is told of a text that is too long.
fn long_reasons(alloc: Global, refusal: Refusal) -> Result<Reasons, Memory> {
    let (wanted, next): (&[u8], &[u8]) = match refusal {
        Refusal::TooLong => (
            b"a source of at most 1,048,576 bytes",
            b"shorten it; blanks and comments count too",
        ),
        _ => (b"a history of at most 67,108,864 bytes", b""),
    };
    without_marks(alloc, wanted, next)
}

/// What is told of a file that is too long; one that cannot be read is not judged.
pub(super) fn unread(alloc: Global, file: &Word, refusal: Refusal) -> Result<Told, Refusal>
    ensures { IfErr result IsUnread }
{
    match refusal {
        Refusal::Memory => Err(Refusal::Memory),
        Refusal::ReadFault => Err(Refusal::ReadFault),
        _ => match long_reasons(alloc, refusal) {
            Ok(reasons) => told(told_of(alloc, file.text().as_bytes(), b"", refusal, &reasons)),
            Err(_) => Err(Refusal::Memory),
        },
    }
}

/// What is told of the source of a file: why `np check` refuses it.
pub fn reason_of_file<T: Texts>(alloc: Global, texts: &mut T, file: &Word) -> Result<Told, Refusal>
    ensures { IfErr result IsUnread }
{
    match read_text(alloc, texts, file, LONGEST_SOURCE, Refusal::TooLong) {
        Ok(bytes) => told(judged(alloc, file.text().as_bytes(), bytes.as_slice())),
        Err(refusal) => unread(alloc, file, refusal),
    }
}

/// What is told of a history of a source, for what is done with it: why np refuses either.
pub fn reason_of_history<T: Texts>(
    alloc: Global,
    texts: &mut T,
    file: &Word,
    name: &Word,
    history: History,
) -> Result<Told, Refusal>
    ensures { IfErr result IsUnread }
{
    let bytes = match read_text(alloc, texts, file, LONGEST_SOURCE, Refusal::TooLong) {
        Ok(bytes) => bytes,
        Err(refusal) => return unread(alloc, file, refusal),
    };
    let low = match lowered(alloc, history.infrastructure, bytes.as_slice()) {
        Ok(low) => low,
        Err(refusal) => return source_told(alloc, file, bytes.as_slice(), refusal),
    };
    let lines = match read_text(alloc, texts, name, LONGEST_HISTORY, Refusal::HistoryTooLong) {
        Ok(lines) => lines,
        Err(refusal) => return unread(alloc, name, refusal),
    };
    let compiled = Compiled {
        source: bytes.as_slice(),
        low: &low,
    };
    of_history(alloc, compiled, name, lines.as_slice(), history)
}

/// What is told of a source, of a history of it, or of what a word names that stands in the place of a source.
pub fn reason_of<T: Texts>(
    alloc: Global,
    texts: &mut T,
    file: &Word,
    history: &Option<Word>,
    infrastructure: Infrastructure,
) -> Result<Told, Refusal>
    ensures { IfErr result IsUnread }
{
    let Some(name) = history else {
        return match named(file) {
            Some(subject) => explained(alloc, subject),
            None => reason_of_file(alloc, texts, file),
        };
    };
    let asked = History {
        infrastructure,
        purpose: Purpose::Replay,
    };
    reason_of_history(alloc, texts, file, name, asked)
}
