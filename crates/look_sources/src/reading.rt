//! Reading the texts that the words name.

ghost use Rattle.std.specs.Prelude.{◌≤◌, length, IfOk};

use np_check::Checked;
use np_io::{ReadFail, Texts, Word, read_all};
use np_syntax::{LONGEST_SOURCE, List};
use np_verdict::{Refusal, checked_source};
use std::alloc::Global;

/// How many bytes the text of a history may have.
pub const LONGEST_HISTORY: usize = 67_108_864;

/// The bytes of a text, which has at most `limit` of them. `long` is the refusal of one with more.
pub fn read_text<T: Texts>(
    alloc: Global,
    texts: &mut T,
    name: &Word,
    limit: usize,
    long: Refusal,
) -> Result<List<u8>, Refusal>
    ensures { IfOk result (λ bytes. length bytes ≤ limit) }
{
    match read_all(alloc, texts, name, limit) {
        Ok(bytes) => Ok(bytes),
        Err(ReadFail::Memory) => Err(Refusal::Memory),
        Err(ReadFail::ReadFault) => Err(Refusal::ReadFault),
        Err(ReadFail::TooLong) => Err(long),
    }
}

/// The checked program of the source of a name.
pub fn source_of<T: Texts>(alloc: Global, texts: &mut T, file: &Word) -> Result<Checked, Refusal> {
    let bytes = read_text(alloc, texts, file, LONGEST_SOURCE, Refusal::TooLong)?;
    checked_source(alloc, bytes.as_slice())
}
