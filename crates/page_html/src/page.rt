//! What stands on a page.

use np_syntax::{List, Text};
use picture_svg::Hue;
use source_words::Line;

/// What the source says, or what the sites do.
#[derive(Clone, Copy)]
pub enum Level {
    High,
    Low,
}

/// An event in a table.
#[derive(Drop)]
pub struct Row {
    /// The event, as a line of a history.
    pub event: Text,
    /// Whether the source says it, and not the infrastructure.
    pub own: bool,
    pub hue: Hue,
    pub agent: Text,
    /// What the agent does.
    pub words: Text,
    pub site: Text,
    /// The process node that it is of, the number of its line, and its own words; 0 and nothing where it is of none.
    pub node: u32,
    pub line: u32,
    pub code: Text,
    /// The numbers of the events, counted from 1, that led to it directly.
    pub needs: List<u32>,
    /// The number of the event of the other level that it is, 0 for none.
    pub twin: u32,
}

/// The run at a level: its picture, its events, and what is said of both where they are not whole.
#[derive(Drop)]
pub struct View {
    pub picture: Text,
    pub rows: List<Row>,
    pub summary: Text,
    pub note: Text,
}

/// What was printed, and the number of the event of the source that printed it.
#[derive(Drop)]
pub struct Printed {
    pub event: u32,
    pub text: Text,
}

/// A page: the name of the source, what is said of the run, the lines of the source, what was printed, how the run ended, and the
/// run at both levels.
#[derive(Drop)]
pub struct Page {
    pub title: Text,
    pub summary: Text,
    pub lines: List<Line>,
    pub printed: List<Printed>,
    pub end: Text,
    pub high: View,
    pub low: View,
}
