//! Lines that are no event's line.

use super::field::{FIELDS, HIGH, KIND, MADE1, MADE2, ROLE, has_form, high_word};
use super::layout::{Layout, field_in, line_from};
use np_syntax::{List, Memory, Text};
use source_places::{
    Mark, Range, Reasons, filled, filled_by, marked, number_text, offset_of_line, without_marks,
};
use std::alloc::Global;

/// What is wrong with a line: the range at fault, how it is told, and what was wanted there.
#[derive(Drop)]
struct Wrong {
    range: Range,
    label: Text,
    wanted: Text,
}

/// A line of a history with its offset, and how many fields it is to have.
#[derive(Clone, Copy)]
struct Line<'a> {
    alloc: Global,
    line: &'a [u8],
    start: usize,
    fields: usize,
}

impl<'a> Line<'a> {
    /// How a field is written.
    fn field(&self, index: usize) -> &'a [u8] {
        let range = field_in(self.line, 0, index);
        self.line.get(range.from..range.to).unwrap_or(&[])
    }

    /// How many fields the line has.
    fn count(&self) -> usize {
        let blanks = self.line.iter().filter(|byte| **byte == b' ').count();
        blanks.saturating_add(1)
    }

    /// What is wrong with a field, which is named.
    fn wrong(&self, index: usize, wanted: Text) -> Result<Option<Wrong>, Memory> {
        let name: &[u8] = match FIELDS.get(index) {
            Some(field) => field.name,
            None => b"",
        };
        Ok(Some(Wrong {
            range: field_in(self.line, self.start, index),
            label: List::from_slice(self.alloc, name)?,
            wanted,
        }))
    }

    /// What is wrong with the last field of the second format.
    fn wrong_high(&self) -> Result<Option<Wrong>, Memory> {
        let (kind, role) = (self.field(KIND), self.field(ROLE));
        let word = high_word(kind, role);
        if self.field(HIGH) == word {
            return Ok(None);
        }
        let front = filled(self.alloc, b"`%`, as # and ~ say", word)?;
        let mut wanted = List::new(self.alloc);
        for byte in front.as_slice() {
            match *byte {
                b'#' => wanted.append(kind)?,
                b'~' => wanted.append(role)?,
                other => wanted.add(other)?,
            }
        }
        self.wrong(HIGH, wanted)
    }

    /// What is wrong with the field of an index.
    fn wrong_at(&self, index: usize) -> Result<Option<Wrong>, Memory> {
        let Some(field) = FIELDS.get(index) else {
            return Ok(None);
        };
        if !has_form(self.field(index), index) {
            return self.wrong(index, List::from_slice(self.alloc, field.wanted)?);
        }
        let first = matches!(self.field(MADE1), b"-");
        if index == MADE2 && first && !matches!(self.field(MADE2), b"-") {
            return self.wrong(
                index,
                List::from_slice(self.alloc, b"`-`, since MADE1 is `-`")?,
            );
        }
        if index == HIGH {
            return self.wrong_high();
        }
        Ok(None)
    }

    /// What is told of a field that is missing.
    fn missing(&self) -> Result<Wrong, Memory> {
        let count = self.count();
        let number = number_text(self.alloc, count.saturating_add(1) as u64)?;
        let all = number_text(self.alloc, self.fields as u64)?;
        let label = filled_by(
            self.alloc,
            b"field % of # is missing",
            number.as_slice(),
            all.as_slice(),
        )?;
        let name: &[u8] = match FIELDS.get(count) {
            Some(field) => field.name,
            None => b"",
        };
        let end = self.start.saturating_add(self.line.len());
        Ok(Wrong {
            range: Range {
                from: end,
                to: end.saturating_add(1),
            },
            label,
            wanted: filled(self.alloc, b"the field %", name)?,
        })
    }

    /// What is told of what stands behind the last field.
    fn further(&self) -> Result<Wrong, Memory> {
        let all = number_text(self.alloc, self.fields as u64)?;
        let from = field_in(self.line, self.start, self.fields).from;
        Ok(Wrong {
            range: Range {
                from: from.saturating_sub(1),
                to: self.start.saturating_add(self.line.len()),
            },
            label: filled(self.alloc, b"more than % fields", all.as_slice())?,
            wanted: List::from_slice(self.alloc, b"the end of the line")?,
        })
    }

    /// The first thing from the left that is wrong with the line.
    fn first_wrong(&self) -> Result<Wrong, Memory> {
        for index in 0..self.fields.min(self.count()) {
            if let Some(wrong) = self.wrong_at(index)? {
                return Ok(wrong);
            }
        }
        if self.count() < self.fields {
            self.missing()
        } else {
            self.further()
        }
    }
}

/// What is told of a line that is no event's line.
fn line_reasons(
    alloc: Global,
    bytes: &[u8],
    layout: Layout,
    number: usize,
) -> Result<Reasons, Memory> {
    let start = offset_of_line(bytes, number);
    let line = Line {
        alloc,
        line: line_from(bytes, start),
        start,
        fields: if layout.second { 9 } else { 8 },
    };
    let Wrong {
        range,
        label,
        wanted,
    } = line.first_wrong()?;
    let words: &[u8] = if layout.second {
        b"an event has the fields SITE KIND ACTOR OTHER NODE ROLE MADE1 MADE2 HIGH"
    } else {
        b"an event has the fields SITE KIND ACTOR OTHER NODE ROLE MADE1 MADE2"
    };
    Ok(Reasons {
        refused: Some(marked(range, range.from, label)),
        beside: None,
        wanted,
        why: List::new(alloc),
        next: List::from_slice(alloc, words)?,
    })
}

/// What is told of a line that is missing at the end of a text.
fn end_reasons(alloc: Global, bytes: &[u8], layout: Layout) -> Result<Reasons, Memory> {
    let (wanted, next): (&[u8], &[u8]) = if layout.first > 0 {
        (
            b"the line `end`",
            b"the text is cut off: write the history again, or end it by a line `end`",
        )
    } else {
        (
            b"a line `history 1` or `history 2`",
            b"write it by `np run FILE --history`",
        )
    };
    let mut reasons = without_marks(alloc, wanted, next)?;
    if layout.lines > 0 {
        let start = offset_of_line(bytes, layout.lines);
        let end = start.saturating_add(line_from(bytes, start).len());
        reasons.refused = Some(Mark {
            range: Range {
                from: end,
                to: end.saturating_add(1),
            },
            label: List::from_slice(alloc, b"the text ends behind this")?,
        });
    }
    Ok(reasons)
}

/// What is told of the line of a number, which no history has there.
pub fn syntax_reasons(
    alloc: Global,
    bytes: &[u8],
    layout: Layout,
    number: usize,
) -> Result<Reasons, Memory> {
    if layout.lines < number {
        end_reasons(alloc, bytes, layout)
    } else {
        line_reasons(alloc, bytes, layout, number)
    }
}
