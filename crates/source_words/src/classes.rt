//! The classes of tokens.

use super::word::{Class, Named};
use np_lex::{Key, What};

/// The class of a name: that of the first agent of this name, if there is one.
fn name_class(agents: &[Named], text: &[u8]) -> Class {
    for agent in agents {
        if agent.name.as_slice() == text {
            return Class::Agent(agent.hue);
        }
    }
    Class::Name
}

fn key_class(key: Key) -> Class {
    match key {
        Key::True | Key::False => Class::Literal,
        Key::IntType | Key::BoolType | Key::StringType | Key::SiteType | Key::AgentType => {
            Class::Type
        }
        _ => Class::Keyword,
    }
}

/// The class of a token.
pub(super) fn class_of(agents: &[Named], what: &What) -> Class {
    match what {
        What::Word(key) => key_class(*key),
        What::Ident(text) => name_class(agents, text.as_slice()),
        What::Number(_) | What::Str(_) => Class::Literal,
        What::Sign(_) => Class::Sign,
        What::End => Class::Blank,
    }
}
