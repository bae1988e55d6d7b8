use super::word::Word;
use np_syntax::Text;

/// A text in memory, with the name under which it is held.
#[derive(Drop)]
pub struct NamedText {
    pub name: Word,
    pub bytes: Text,
}
