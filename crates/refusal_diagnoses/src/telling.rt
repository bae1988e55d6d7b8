//! What is said of a refusal.

ghost use Rattle.std.specs.Prelude.{◌<◌, ◌^◌, None, Some, length, IfOk};
ghost use Rattle.text_writer.specs.Writes.{Writes};
ghost use Rattle.np_verdict.specs.Lines.{line_of};
ghost use Rattle.refusal_diagnoses.specs.Diagnoses.{IsDiagnosis, IsToldThere, IsUsage, header, place_text};

use super::places::place_for;
use super::spot::spot_of;
use itoa::Buffer;
use np_syntax::{Memory, Text};
use np_verdict::{Refusal, line};
use source_places::{Place, Reasons, lines_of, put_lines, put_shown};
use std::alloc::Global;
use text_writer::TextWriter;

/// Writes what np writes of a refusal.
fn put_refusal(alloc: Global, text: &mut TextWriter, refusal: Refusal)
    ensures { Writes text.old text.new (line_of refusal) }
{
    match line(alloc, refusal) {
        Ok(words) => text.put(words.as_slice()),
        Err(_) => text.fail(),
    }
}

/// Writes a line and a column.
fn put_place(text: &mut TextWriter, place: Place)
    ensures { Writes text.old text.new (place_text place) }
{
    text.put(b":");
    text.put(Buffer::new().format(place.line).as_bytes());
    text.put(b":");
    text.put(Buffer::new().format(place.column).as_bytes())
}

/// The file, the line and the column, and what np writes of a refusal.
fn put_placed_header(
    alloc: Global,
    text: &mut TextWriter,
    file: &[u8],
    place: Place,
    refusal: Refusal,
)
    ensures { Writes text.old text.new (header file.now (Some place) refusal) }
{
    put_shown(text, file);
    put_place(text, place);
    text.put(b": ");
    put_refusal(alloc, text, refusal)
}

/// The file, and what np writes of a refusal.
fn put_bare_header(alloc: Global, text: &mut TextWriter, file: &[u8], refusal: Refusal)
    ensures { Writes text.old text.new (header file.now None refusal) }
{
    put_shown(text, file);
    text.put(b": ");
    put_refusal(alloc, text, refusal)
}

/// Writes what stands before the lines that tell a refusal.
fn put_header(
    alloc: Global,
    text: &mut TextWriter,
    file: &[u8],
    place: Option<Place>,
    refusal: Refusal,
)
    ensures { Writes text.old text.new (header file.now place refusal) }
{
    match place {
        Some(place) => put_placed_header(alloc, text, file, place, refusal),
        None => put_bare_header(alloc, text, file, refusal),
    }
}

/// What is said of a refusal at a place of a text, if it has one.
fn told_there(
    alloc: Global,
    file: &[u8],
    bytes: &[u8],
    place: Option<Place>,
    refusal: Refusal,
    reasons: &Reasons,
) -> Result<Text, Memory>
    requires { length bytes.now < 2 ^ 31 }
    ensures { IfOk result (IsToldThere file.now place refusal) }
{
    let lines = lines_of(alloc, bytes, reasons)?;
    let mut text = TextWriter::new(alloc);
    put_header(alloc, &mut text, file, place, refusal);
    put_lines(&mut text, lines.as_slice());
    text.finish()
}

/// What is said of a refusal of the text of a file.
pub(super) fn diagnosis(
    alloc: Global,
    file: &[u8],
    bytes: &[u8],
    refusal: Refusal,
    reasons: &Reasons,
) -> Result<Text, Memory>
    requires { length bytes.now < 2 ^ 31 }
    ensures { IfOk result (IsDiagnosis file.now bytes.now refusal) }
{
    let place = place_for(bytes, spot_of(refusal), reasons);
    told_there(alloc, file, bytes, place, refusal, reasons)
}

/// What is said of words that np does not take.
pub(super) fn usage_text(alloc: Global, lines: &[Text]) -> Result<Text, Memory>
    ensures { IfOk result IsUsage }
{
    let mut text = TextWriter::new(alloc);
    text.put(b"np: 22 Usage\n");
    put_lines(&mut text, lines);
    text.finish()
}
