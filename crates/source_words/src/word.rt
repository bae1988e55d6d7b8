//! Lines and words.

use np_syntax::{List, Text};

/// What a word is. An agent's name has the number of its colour.
#[derive(Clone, Copy, PartialEq, Eq)]
pub enum Class {
    Blank,
    Comment,
    Keyword,
    Type,
    Literal,
    Sign,
    Name,
    Agent(u32),
}

/// The class of a word, and the process node whose words it is one of, 0 for none.
#[derive(Clone, Copy, PartialEq, Eq)]
pub struct Dye {
    pub class: Class,
    pub node: u32,
}

#[derive(Drop)]
pub struct Word {
    pub dye: Dye,
    pub text: Text,
}

#[derive(Drop)]
pub struct Line {
    pub words: List<Word>,
}

/// Where the words of a process node begin.
#[derive(Clone, Copy)]
pub struct Head {
    pub at: u32,
    pub node: u32,
}

/// A name that is an agent's, with the number of its colour.
#[derive(Drop)]
pub struct Named {
    pub name: Text,
    pub hue: u32,
}
