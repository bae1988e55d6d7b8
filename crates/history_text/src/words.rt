//! The fixed words of a history's text.

ghost use Rattle.std.specs.Prelude.{◌≡◌};
ghost use Rattle.history_text.specs.Spelling as spec;
ghost use Rattle.history_text.specs.Reading as reading;

use super::format::Format;
use np_syntax::{Kind, Role};

/// Each kind of event once.
pub const KINDS: [Kind; 17] = [
    Kind::Stop,
    Kind::Fork,
    Kind::New,
    Kind::Let,
    Kind::If,
    Kind::Comm,
    Kind::Rep,
    Kind::Agent,
    Kind::Depart,
    Kind::Arrive,
    Kind::Local,
    Kind::Send,
    Kind::Land,
    Kind::Print,
    Kind::Open,
    Kind::Lookup,
    Kind::Post,
];

/// Each role once.
pub const ROLES: [Role; 3] = [Role::Plain, Role::Post, Role::Infra];

/// Each format once.
pub const FORMATS: [Format; 2] = [Format::First, Format::Second];

/// The word of a kind.
pub fn kind_word(kind: Kind) -> &'static [u8]
    ensures { result.now ≡ spec.kind_word kind }
{
    match kind {
        Kind::Stop => b"Stop",
        Kind::Fork => b"Fork",
        Kind::New => b"New",
        Kind::Let => b"Let",
        Kind::If => b"If",
        Kind::Comm => b"Comm",
        Kind::Rep => b"Rep",
        Kind::Agent => b"Agent",
        Kind::Depart => b"Depart",
        Kind::Arrive => b"Arrive",
        Kind::Local => b"Local",
        Kind::Send => b"Send",
        Kind::Land => b"Land",
        Kind::Print => b"Print",
        Kind::Open => b"Open",
        Kind::Lookup => b"Lookup",
        Kind::Post => b"Post",
    }
}

/// The word of a role.
pub fn role_word(role: Role) -> &'static [u8]
    ensures { result.now ≡ spec.role_word role }
{
    match role {
        Role::Plain => b"Plain",
        Role::Post => b"Post",
        Role::Infra => b"Infra",
    }
}

/// What becomes of an event in the high-level run.
pub fn high_word(kind: Kind, role: Role) -> &'static [u8]
    ensures { result.now ≡ spec.high_word kind role }
{
    match (kind, role) {
        (Kind::Send, Role::Post) => b"Post",
        (Kind::Land, Role::Post) => b"-",
        (_, Role::Infra) => b"-",
        _ => b"=",
    }
}

/// The first line of a history.
pub fn first_line(format: Format) -> &'static [u8]
    ensures { result.now ≡ spec.first_line format }
{
    match format {
        Format::First => b"history 1",
        Format::Second => b"history 2",
    }
}

/// The kind of this word.
pub fn kind_of(word: &[u8]) -> Option<Kind>
    ensures { result ≡ reading.kind_of word.now }
{
    KINDS.iter().copied().find(|kind| kind_word(*kind) == word)
}

/// The role of this word.
pub fn role_of(word: &[u8]) -> Option<Role>
    ensures { result ≡ reading.role_of word.now }
{
    ROLES.iter().copied().find(|role| role_word(*role) == word)
}

/// The format of the history that this line begins.
pub fn format_of(line: &[u8]) -> Option<Format>
    ensures { result ≡ reading.format_of line.now }
{
    FORMATS
        .iter()
        .copied()
        .find(|format| first_line(*format) == line)
}
