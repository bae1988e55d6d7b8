//! The words of a history for kinds and roles.

ghost use Rattle.std.specs.Prelude.{◌≡◌};
ghost use Rattle.history_text.specs.Spelling as spec;

use np_syntax::{Kind, Role};

/// The word of a kind.
pub(super) fn kind_word(kind: Kind) -> &'static [u8]
    ensures { result.now ≡ spec.kind_word kind }
{
    match kind {
        Kind::Stop => b"Stop",
        Kind::Fork => b"Fork",
        Kind::New => b"New",
        Kind::Let => b"Let",
        Kind::If => b"If",
        Kind::Comm => b"Comm",
        Kind::Rep => b"Rep",
        Kind::Agent => b"Agent",
        Kind::Depart => b"Depart",
        Kind::Arrive => b"Arrive",
        Kind::Local => b"Local",
        Kind::Send => b"Send",
        Kind::Land => b"Land",
        Kind::Print => b"Print",
        Kind::Open => b"Open",
        Kind::Lookup => b"Lookup",
        Kind::Post => b"Post",
    }
}

/// The word of a role.
pub(super) fn role_word(role: Role) -> &'static [u8]
    ensures { result.now ≡ spec.role_word role }
{
    match role {
        Role::Plain => b"Plain",
        Role::Post => b"Post",
        Role::Infra => b"Infra",
    }
}
