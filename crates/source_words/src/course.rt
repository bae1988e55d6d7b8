//! Which tokens are the own words of which process node.

use super::word::Head;
use np_lex::{Key, Sign, Token, What};

/// The node whose words are read, 0 for none; how many brackets are open in them, and whether it makes an agent; and the number
/// of the head that comes next.
#[derive(Drop)]
pub(super) struct Course {
    node: u32,
    depth: u32,
    makes_agent: bool,
    next: usize,
}

impl Course {
    pub fn new() -> Course {
        Course {
            node: 0,
            depth: 0,
            makes_agent: false,
            next: 0,
        }
    }

    /// Reads a token, and answers the node whose words it is one of.
    pub fn read(&mut self, heads: &[Head], token: &Token) -> u32 {
        match heads.get(self.next).copied() {
            Some(head) if head.at <= token.at => self.begin(head, &token.what),
            _ => self.go_on(&token.what),
        }
        self.deepen(&token.what);
        self.node
    }

    fn begin(&mut self, head: Head, what: &What) {
        self.next = self.next.saturating_add(1);
        self.node = head.node;
        self.depth = 0;
        self.makes_agent = matches!(what, What::Word(Key::AgentWord));
    }

    fn go_on(&mut self, what: &What) {
        if self.depth == 0 && self.ends_with(what) {
            self.node = 0;
        }
    }

    /// Whether a token stands behind the own words of a node.
    fn ends_with(&self, what: &What) -> bool {
        match what {
            What::Word(Key::In | Key::Then | Key::Else) => true,
            What::Sign(Sign::Equals) => self.makes_agent,
            What::Sign(Sign::Arrow | Sign::Bar | Sign::RoundClose | Sign::SquareClose) => true,
            What::End => true,
            _ => false,
        }
    }

    fn deepen(&mut self, what: &What) {
        match what {
            What::Sign(Sign::RoundOpen | Sign::SquareOpen) => {
                self.depth = self.depth.saturating_add(1);
            }
            What::Sign(Sign::RoundClose | Sign::SquareClose) => {
                self.depth = self.depth.saturating_sub(1);
            }
            _ => {}
        }
    }
}
