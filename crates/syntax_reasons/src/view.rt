//! What is seen where a token cannot stand.

use np_lex::Token;
use np_syntax::{List, Memory};
use source_forms::{Form, Kind, Open, Reading, is_process, kind_of, token_text};
use std::alloc::Global;

/// What stands where a token cannot: the source and its tokens, how far they could be read, and what was wanted there.
#[derive(Drop)]
pub(super) struct View<'a> {
    pub alloc: Global,
    pub bytes: &'a [u8],
    pub tokens: &'a [Token],
    pub reading: &'a Reading,
    pub wanted: &'a [Kind],
}

impl<'a> View<'a> {
    /// The kind of the token of an index; the end behind the last one.
    pub(super) fn kind_at(&self, index: usize) -> Kind {
        match self.tokens.get(index) {
            Some(token) => kind_of(&token.what),
            None => Kind::End,
        }
    }

    /// The kind of the token at fault.
    pub(super) fn kind(&self) -> Kind {
        self.kind_at(self.reading.at)
    }

    /// The kind of the token before, if there is one.
    pub(super) fn before(&self) -> Option<Kind> {
        if self.reading.at == 0 {
            return None;
        }
        Some(self.kind_at(self.reading.at.saturating_sub(1)))
    }

    /// How the token of an index is written.
    pub(super) fn text_at(&self, index: usize) -> &'a [u8] {
        token_text(self.bytes, self.tokens, index)
    }

    /// The name at fault, or else the one before.
    pub(super) fn name(&self) -> &'a [u8] {
        let at = self.reading.at;
        if self.kind() == Kind::Name {
            return self.text_at(at);
        }
        match self.before() {
            Some(Kind::Name) => self.text_at(at.saturating_sub(1)),
            _ => &[],
        }
    }

    /// The innermost form that is open.
    pub(super) fn form(&self) -> Open {
        match self.reading.open.as_slice().last() {
            Some(open) => *open,
            None => Open {
                form: Form::Program,
                first: 0,
            },
        }
    }

    /// The innermost process that has ended before the token at fault.
    pub(super) fn ended(&self) -> Option<Open> {
        self.reading
            .ended
            .as_slice()
            .iter()
            .copied()
            .find(|open| is_process(open.form))
    }

    /// Whether a bracket is open.
    pub(super) fn in_bracket(&self) -> bool {
        self.reading
            .open
            .as_slice()
            .iter()
            .any(|open| open.form == Form::Bracket)
    }
}

/// A copy of a text in small letters.
pub(super) fn lowered(alloc: Global, text: &[u8]) -> Result<List<u8>, Memory> {
    let mut small = List::new(alloc);
    for byte in text {
        small.add(byte.to_ascii_lowercase())?;
    }
    Ok(small)
}

/// A copy of a text in small letters but for the first one.
pub(super) fn capital(alloc: Global, text: &[u8]) -> Result<List<u8>, Memory> {
    let mut capital = List::new(alloc);
    for byte in text {
        if capital.len() == 0 {
            capital.add(byte.to_ascii_uppercase())?;
        } else {
            capital.add(byte.to_ascii_lowercase())?;
        }
    }
    Ok(capital)
}
