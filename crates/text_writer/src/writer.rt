ghost use Rattle.std.specs.Prelude.{◌≡◌, [], ◌∷◌, true, false, IfOk};

use np_syntax::{List, Memory, Text};
use std::alloc::Global;

/// What was written of a text, and whether memory was wanting for more of it.
pub struct TextWriter {
    text: Text,
    failed: bool,
}

impl Drop for TextWriter {
    fn drop(self) {
        let TextWriter { text: _, failed: _ } = self;
    }
}

impl TextWriter {
    ghost use Rattle.text_writer.specs.Writes.{Writes};

    /// Nothing is written, which takes no memory.
    pub fn new(alloc: Global) -> TextWriter
        ensures { (result.failed ≡ false) × (result.text ≡ []) }
    {
        TextWriter {
            text: List::new(alloc),
            failed: false,
        }
    }

    /// Writes a piece.
    pub fn put(&mut self, piece: &[u8])
        ensures { Writes self.old self.new piece.now }
    {
        if !self.failed && self.text.append(piece).is_err() {
            self.failed = true;
        }
    }

    /// Writes a byte.
    pub fn put_byte(&mut self, byte: u8)
        ensures { Writes self.old self.new (byte ∷ []) }
    {
        if !self.failed && self.text.add(byte).is_err() {
            self.failed = true;
        }
    }

    /// Memory is wanting for what was to be written.
    pub fn fail(&mut self)
        ensures { self.new.failed ≡ true }
    {
        self.failed = true;
    }

    /// The text that was written, unless memory was wanting.
    pub fn finish(self) -> Result<Text, Memory>
        ensures { IfOk result (λ text. (self.failed ≡ false) × (text ≡ self.text)) }
    {
        let TextWriter { text, failed } = self;
        if failed { Err(Memory) } else { Ok(text) }
    }
}
