//! Types as they are shown.

use np_show::put_type;
use np_syntax::{List, Memory, Text, Ty};
use source_places::filled;
use std::alloc::Global;
use text_writer::TextWriter;

/// How many bytes a type may have that is shown whole.
const LONGEST: usize = 60;

/// How many bytes are shown of a longer one.
const FRONT: usize = 57;

/// A type as it is written; a long one is cut.
pub(super) fn type_text(alloc: Global, ty: &Ty) -> Result<Text, Memory> {
    let mut written = TextWriter::new(alloc);
    put_type(&mut written, ty);
    let text = written.finish()?;
    if text.len() <= LONGEST {
        return Ok(text);
    }
    let mut cut = List::from_slice(alloc, text.as_slice().get(..FRONT).unwrap_or(&[]))?;
    cut.append(b"...")?;
    Ok(cut)
}

/// Words in which a type stands for each `%`.
pub(super) fn with_type(alloc: Global, words: &[u8], ty: &Ty) -> Result<Text, Memory> {
    let text = type_text(alloc, ty)?;
    filled(alloc, words, text.as_slice())
}

/// Whether a type is a word.
pub(super) fn is_word(ty: &Ty) -> bool {
    !matches!(ty, Ty::Chan(_, _) | Ty::Tuple(_))
}
