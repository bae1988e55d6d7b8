//! What each byte of a source is.

use super::classes::class_of;
use super::course::Course;
use super::word::{Class, Dye, Head, Named};
use np_lex::Token;
use np_syntax::{List, Memory};
use std::alloc::Global;

/// A token with its dye.
#[derive(Clone, Copy)]
struct Dyed {
    at: u32,
    end: u32,
    dye: Dye,
}

fn dyed_tokens(
    alloc: Global,
    tokens: &[Token],
    heads: &[Head],
    agents: &[Named],
) -> Result<List<Dyed>, Memory> {
    let mut course = Course::new();
    let mut dyed = List::new(alloc);
    for token in tokens {
        let node = course.read(heads, token);
        let class = class_of(agents, &token.what);
        dyed.add(Dyed {
            at: token.at,
            end: token.end,
            dye: Dye { class, node },
        })?;
    }
    Ok(dyed)
}

/// The number of the token that is or comes next, the node of the token before, and whether a comment is read.
#[derive(Drop)]
struct Walk {
    next: usize,
    node: u32,
    in_comment: bool,
}

impl Walk {
    /// The dye of the byte that follows.
    fn dye(&mut self, tokens: &[Dyed], at: usize, byte: u8) -> Dye {
        let end = match tokens.get(self.next) {
            Some(token) => token.end as usize,
            None => at,
        };
        if end <= at {
            self.next = self.next.saturating_add(1);
        }
        match tokens.get(self.next).copied() {
            Some(token) if token.at as usize <= at => self.within(token.dye),
            Some(token) => self.between(token.dye.node, byte),
            None => self.between(0, byte),
        }
    }

    fn within(&mut self, dye: Dye) -> Dye {
        self.in_comment = false;
        self.node = dye.node;
        dye
    }

    /// The dye of a byte between tokens, where the next one has this node.
    fn between(&mut self, node: u32, byte: u8) -> Dye {
        self.in_comment = byte != b'\n' && (self.in_comment || byte == b'-');
        let class = if self.in_comment {
            Class::Comment
        } else {
            Class::Blank
        };
        let node = if self.node == node && !self.in_comment {
            node
        } else {
            0
        };
        Dye { class, node }
    }
}

/// The dyes of the bytes of a source with these tokens.
pub(super) fn dyes_of(
    alloc: Global,
    source: &[u8],
    tokens: &[Token],
    heads: &[Head],
    agents: &[Named],
) -> Result<List<Dye>, Memory> {
    let dyed = dyed_tokens(alloc, tokens, heads, agents)?;
    let mut walk = Walk {
        next: 0,
        node: 0,
        in_comment: false,
    };
    let mut dyes = List::new(alloc);
    for at in 0..source.len() {
        dyes.add(walk.dye(dyed.as_slice(), at, source[at]))?;
    }
    Ok(dyes)
}
