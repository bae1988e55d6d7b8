ghost use Rattle.std.specs.Prelude.{◌≡◌, IfOk};

use np_syntax::Memory;
use std::alloc::Global;
use std::convert::AsStr;
use std::marker::Model;

/// A word of the command line, which may name a text. Contracts see it as the list of its bytes.
#[derive(Drop)]
pub struct Word {
    text: String,
}

impl Model for Word {
    ghost use Rattle.std.specs.Prelude.{ℕ, List};
    ghost use Rattle.std.specs.String.{string_bytes};

    ghost Value = { List ℕ };

    ghost view = { λ word. string_bytes word.text };
}

impl Word {
    /// A copy of the text.
    pub fn new(alloc: Global, bytes: &str) -> Result<Word, Memory>
        ensures { IfOk result (λ word. word ≡ bytes.now) }
    {
        let text = String::from_str(alloc, bytes)?;
        Ok(Word { text })
    }

    /// The word as text. Takes no memory.
    pub fn text(&self) -> &str
        ensures { result.now ≡ self.now }
    {
        self.text.as_str()
    }
}

impl AsStr for Word {
    ghost text = { λ word. word };

    fn as_str(&self) -> &str {
        self.text()
    }
}
