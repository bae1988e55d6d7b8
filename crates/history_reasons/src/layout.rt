//! Where the lines of a history stand, and the fields in them.

use source_places::{Range, offset_of_line};

/// The lines of a text: the number of the one that says the format of a history, and whether it is the second format. No line has the
/// number 0.
#[derive(Clone, Copy)]
pub struct Layout {
    pub first: usize,
    pub second: bool,
    pub lines: usize,
}

/// The line that begins at an offset, without its line feed.
pub(super) fn line_from(bytes: &[u8], start: usize) -> &[u8] {
    let rest = bytes.get(start..).unwrap_or(&[]);
    let len = rest.iter().take_while(|byte| **byte != b'\n').count();
    rest.get(..len).unwrap_or(rest)
}

/// The layout of a text.
pub fn layout_of(bytes: &[u8]) -> Layout {
    let mut layout = Layout {
        first: 0,
        second: false,
        lines: 0,
    };
    let mut start: usize = 0;
    for _ in bytes {
        if bytes.len() <= start {
            return layout;
        }
        let line = line_from(bytes, start);
        layout.lines = layout.lines.saturating_add(1);
        if layout.first == 0 && matches!(line, b"history 1" | b"history 2") {
            layout.first = layout.lines;
            layout.second = line.last() == Some(&b'2');
        }
        start = start.saturating_add(line.len()).saturating_add(1);
    }
    layout
}

impl Layout {
    /// The number of the line of an event.
    pub fn line_of(&self, index: usize) -> usize {
        self.first.saturating_add(index).saturating_add(1)
    }
}

/// The range of a field of a line that begins at an offset. Fields are parted by one blank.
pub(super) fn field_in(line: &[u8], start: usize, field: usize) -> Range {
    let mut from: usize = 0;
    let mut seen: usize = 0;
    for at in 0..line.len() {
        if line[at] == b' ' {
            if seen == field {
                return Range {
                    from: start.saturating_add(from),
                    to: start.saturating_add(at),
                };
            }
            seen = seen.saturating_add(1);
            from = at.saturating_add(1);
        }
    }
    Range {
        from: start.saturating_add(from),
        to: start.saturating_add(line.len()),
    }
}

/// The range of a field of an event's line.
pub(super) fn range_of(bytes: &[u8], layout: Layout, index: usize, field: usize) -> Range {
    let start = offset_of_line(bytes, layout.line_of(index));
    field_in(line_from(bytes, start), start, field)
}
