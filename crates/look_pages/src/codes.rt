//! The own words of each process of a source, and the line that they begin in.

use np_syntax::{List, Memory, Name, Text};
use np_tables::Table;
use source_words::{Line, Word};
use std::alloc::Global;

/// Words of a process by its node, and the number of their line.
#[derive(Drop)]
pub(super) struct Code {
    pub node: u32,
    pub line: u32,
    pub text: Text,
}

/// The words of the processes, each by its number in the list; and the number of those that stand first for a node.
#[derive(Drop)]
pub(super) struct Codes {
    list: List<Code>,
    numbers: Table<u32>,
}

/// The key of a node.
fn key_of(node: u32) -> Name {
    Name { site: 0, n: node }
}

impl Codes {
    /// The words of the process of a node, if there are some.
    pub fn at(&self, node: u32) -> Option<&Code> {
        let number = self.numbers.get(key_of(node)).copied()?;
        self.list.as_slice().get(number as usize)
    }

    fn add(&mut self, code: Code) -> Result<(), Memory> {
        let Ok(number) = u32::try_from(self.list.len()) else {
            return Err(Memory);
        };
        let key = key_of(code.node);
        if code.node != 0 && self.numbers.get(key).is_none() {
            self.numbers.insert(key, number)?;
        }
        self.list.add(code)
    }
}

/// The words that go on from a place of a line with the words of one node, and how many there are.
fn run_of(alloc: Global, words: &[Word], at: usize) -> Result<(Text, usize), Memory> {
    let mut text = List::new(alloc);
    let mut count = 0usize;
    let node = node_at(words, at);
    for place in at..words.len() {
        if node_at(words, place) != node {
            return Ok((text, count));
        }
        text.append(words[place].text.as_slice())?;
        count = count.saturating_add(1);
    }
    Ok((text, count))
}

fn node_at(words: &[Word], at: usize) -> u32 {
    match words.get(at) {
        Some(word) => word.dye.node,
        None => 0,
    }
}

/// Notes the words of a line of a number.
fn add_line(alloc: Global, codes: &mut Codes, line: u32, words: &[Word]) -> Result<(), Memory> {
    let mut behind = 0usize;
    for at in 0..words.len() {
        if behind <= at {
            let (text, count) = run_of(alloc, words, at)?;
            behind = at.saturating_add(count);
            let node = node_at(words, at);
            codes.add(Code { node, line, text })?;
        }
    }
    Ok(())
}

/// The words of the processes of a source with these lines.
pub(super) fn codes_of(alloc: Global, lines: &[Line]) -> Result<Codes, Memory> {
    let mut codes = Codes {
        list: List::new(alloc),
        numbers: Table::new(alloc),
    };
    let mut number = 0u32;
    for line in lines {
        number = number.saturating_add(1);
        add_line(alloc, &mut codes, number, line.words.as_slice())?;
    }
    Ok(codes)
}
