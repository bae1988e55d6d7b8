//! The kinds of tokens.

ghost use Rattle.std.specs.Prelude.{◌≡◌};
ghost use Rattle.source_forms.specs.Kinds as spec;

use np_lex::{Key, Sign, What};

/// A kind of tokens. The number 0 is a kind of its own, since it is a process too.
#[derive(Clone, Copy, PartialEq, Eq)]
pub enum Kind {
    Zero,
    Number,
    Str,
    Name,
    Word(Key),
    Sign(Sign),
    End,
}

/// Each kind once.
pub const KINDS: [Kind; 46] = [
    Kind::Zero,
    Kind::Number,
    Kind::Str,
    Kind::Name,
    Kind::Word(Key::Sites),
    Kind::Word(Key::Main),
    Kind::Word(Key::At),
    Kind::Word(Key::New),
    Kind::Word(Key::In),
    Kind::Word(Key::AgentWord),
    Kind::Word(Key::Migrate),
    Kind::Word(Key::To),
    Kind::Word(Key::IfLocal),
    Kind::Word(Key::Then),
    Kind::Word(Key::Else),
    Kind::Word(Key::If),
    Kind::Word(Key::Let),
    Kind::Word(Key::Print),
    Kind::Word(Key::True),
    Kind::Word(Key::False),
    Kind::Word(Key::IntType),
    Kind::Word(Key::BoolType),
    Kind::Word(Key::StringType),
    Kind::Word(Key::SiteType),
    Kind::Word(Key::AgentType),
    Kind::Sign(Sign::Semi),
    Kind::Sign(Sign::Equals),
    Kind::Sign(Sign::RoundOpen),
    Kind::Sign(Sign::RoundClose),
    Kind::Sign(Sign::Bar),
    Kind::Sign(Sign::Colon),
    Kind::Sign(Sign::Caret),
    Kind::Sign(Sign::Query),
    Kind::Sign(Sign::Bang),
    Kind::Sign(Sign::Star),
    Kind::Sign(Sign::Arrow),
    Kind::Sign(Sign::Less),
    Kind::Sign(Sign::Greater),
    Kind::Sign(Sign::At),
    Kind::Sign(Sign::SquareOpen),
    Kind::Sign(Sign::SquareClose),
    Kind::Sign(Sign::Plus),
    Kind::Sign(Sign::Minus),
    Kind::Sign(Sign::Same),
    Kind::Sign(Sign::Underscore),
    Kind::End,
];

/// The kind of a token.
pub fn kind_of(what: &What) -> Kind
    ensures { result ≡ spec.kind_of what.now }
{
    match what {
        What::Word(key) => Kind::Word(*key),
        What::Ident(_) => Kind::Name,
        What::Number(0) => Kind::Zero,
        What::Number(_) => Kind::Number,
        What::Str(_) => Kind::Str,
        What::Sign(sign) => Kind::Sign(*sign),
        What::End => Kind::End,
    }
}

/// How a token of a kind may be written. The end is written with nothing.
pub fn kind_text(kind: Kind) -> &'static [u8]
    ensures { result.now ≡ spec.kind_text kind }
{
    match kind {
        Kind::Zero => b"0",
        Kind::Number => b"7",
        Kind::Str => b"\"\"",
        Kind::Name => b"x",
        Kind::Word(key) => key.text(),
        Kind::Sign(sign) => sign.text(),
        Kind::End => b"",
    }
}
