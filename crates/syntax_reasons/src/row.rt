//! A row of the table of what to do next where a token cannot stand.

use source_forms::{Form, Kind};

/// What fills the gap of an advice.
#[derive(Clone, Copy, PartialEq, Eq)]
pub(super) enum Fill {
    Nothing,
    /// The token at fault.
    Token,
    /// The token behind it.
    Next,
    /// The name at fault, or else the one before.
    Name,
    /// That name with a capital in front, or in small letters.
    Capital,
    Lowered,
    /// The token that begins a type.
    TypeStart,
    /// What is wanted.
    Wanted,
}

/// What else has to be the case.
#[derive(Clone, Copy, PartialEq, Eq)]
pub(super) enum Also {
    Nothing,
    /// The token is a keyword, and not the one that goes on with the program.
    Keyword,
    /// The name is that of a type but for capitals, or a keyword but for capitals.
    TypeName,
    KeywordName,
    /// A process has ended, and a bracket is open or is not.
    Ended,
    EndedInside,
    EndedOutside,
    /// A tuple has as many components as it may.
    Full,
    /// A comparison has ended.
    Compared,
    /// No message is open.
    NoMessage,
    /// The number 0 stands directly before.
    BehindZero,
    /// It is not sure that the token begins a process.
    NoProcess,
    /// Just one kind is wanted.
    One,
}

/// An advice and when it is given. An empty list of kinds or forms asks for nothing; `only` has all kinds that are wanted, if it has any.
/// `of_ended` says that it speaks of the process that has ended.
#[derive(Clone, Copy)]
pub(super) struct Row {
    pub token: &'static [Kind],
    pub next: &'static [Kind],
    pub before: &'static [Kind],
    pub has: &'static [Kind],
    pub lacks: &'static [Kind],
    pub only: &'static [Kind],
    pub form: &'static [Form],
    pub ended: &'static [Form],
    pub also: Also,
    pub words: &'static [u8],
    pub fill: Fill,
    pub of_ended: bool,
}

/// An advice that is always given.
pub(super) const ANY: Row = Row {
    token: &[],
    next: &[],
    before: &[],
    has: &[],
    lacks: &[],
    only: &[],
    form: &[],
    ended: &[],
    also: Also::Nothing,
    words: b"",
    fill: Fill::Nothing,
    of_ended: false,
};
