//! The shapes of a picture.

use np_syntax::{List, Text};

/// Whose colour a shape has: that of main, of the daemon, of another agent by its number, or none.
#[derive(Clone, Copy)]
pub enum Hue {
    Plain,
    Main,
    Daemon,
    Agent(u32),
}

/// How a shape looks.
#[derive(Clone, Copy)]
pub enum Look {
    Paper,
    Band,
    Site,
    Title,
    Small,
    Path,
    Idle,
    Birth,
    Message,
    Net,
    Dot,
    Ring,
    Take,
    Print,
    Sent,
    Tick,
    Lost,
    Pill,
    PillName,
    Name,
    Say,
    Number,
    End,
    Ribbon,
}

#[derive(Clone, Copy)]
pub struct Point {
    pub x: u32,
    pub y: u32,
}

/// The head of an arrow, by its corners.
#[derive(Clone, Copy)]
pub struct Head {
    pub tip: Point,
    pub left: Point,
    pub right: Point,
}

/// What a shape is. A disc stands around its point.
#[derive(Drop)]
pub enum Form {
    Disc {
        at: Point,
        radius: u32,
    },
    Plate {
        at: Point,
        width: u32,
        height: u32,
        corner: u32,
    },
    Line {
        from: Point,
        to: Point,
    },
    Words {
        at: Point,
        text: Text,
    },
}

/// A shape that no event is.
#[derive(Drop)]
pub struct Shape {
    pub look: Look,
    pub hue: Hue,
    pub pale: bool,
    pub form: Form,
}

/// The mark of an event, by its number.
#[derive(Clone, Copy)]
pub struct Spot {
    pub event: u32,
    pub at: Point,
    pub look: Look,
    pub hue: Hue,
    pub pale: bool,
}

/// The arrow between two events, by their numbers. That of a Post begins and ends with one event.
#[derive(Clone, Copy)]
pub struct Flight {
    pub from: u32,
    pub to: u32,
    pub start: Point,
    pub end: Point,
    pub head: Option<Head>,
    pub look: Look,
    pub hue: Hue,
    pub pale: bool,
}

/// How wide a picture is at most: of two side by side the width is a number too.
pub const WIDEST: u32 = 1_000_000_000;

/// A picture: what stands below, the arrows, those of posts, the marks of the events, and what is said beside them, in this order;
/// and how large it is.
#[derive(Drop)]
pub struct Drawing {
    pub width: u32,
    pub height: u32,
    pub ground: List<Shape>,
    pub flights: List<Flight>,
    pub posts: List<Flight>,
    pub spots: List<Spot>,
    pub words: List<Shape>,
}
