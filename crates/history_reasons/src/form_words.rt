//! How the kinds of events and the forms of processes are told.

use np_syntax::{Kind, ProcForm, Role};

/// The word of a kind of events.
pub(super) fn kind_word(kind: Kind) -> &'static [u8] {
    match kind {
        Kind::Stop => b"Stop",
        Kind::Fork => b"Fork",
        Kind::New => b"New",
        Kind::Let => b"Let",
        Kind::If => b"If",
        Kind::Comm => b"Comm",
        Kind::Rep => b"Rep",
        Kind::Agent => b"Agent",
        Kind::Depart => b"Depart",
        Kind::Arrive => b"Arrive",
        Kind::Local => b"Local",
        Kind::Send => b"Send",
        Kind::Land => b"Land",
        Kind::Print => b"Print",
        Kind::Open => b"Open",
        Kind::Lookup => b"Lookup",
        Kind::Post => b"Post",
    }
}

/// The word of a role.
pub(super) fn role_word(role: Role) -> &'static [u8] {
    match role {
        Role::Plain => b"Plain",
        Role::Post => b"Post",
        Role::Infra => b"Infra",
    }
}

/// The kind of events that a process makes; an output makes none by itself.
pub(super) fn kind_for(form: &ProcForm) -> Option<Kind> {
    match form {
        ProcForm::Stop => Some(Kind::Stop),
        ProcForm::Par(_, _) => Some(Kind::Fork),
        ProcForm::New(_, _, _) => Some(Kind::New),
        ProcForm::Out(_, _) => None,
        ProcForm::Inp(_, _, _) => Some(Kind::Comm),
        ProcForm::Rep(_, _, _) => Some(Kind::Rep),
        ProcForm::Agent(_, _, _) => Some(Kind::Agent),
        ProcForm::Migrate(_, _) => Some(Kind::Depart),
        ProcForm::IfLocal(_, _, _, _, _) => Some(Kind::Local),
        ProcForm::Send(_, _, _, _) => Some(Kind::Send),
        ProcForm::Post(_, _, _) => Some(Kind::Post),
        ProcForm::If(_, _, _) => Some(Kind::If),
        ProcForm::Let(_, _, _) => Some(Kind::Let),
        ProcForm::Print(_) => Some(Kind::Print),
        ProcForm::Open(_) => Some(Kind::Open),
        ProcForm::Lookup(_, _, _, _, _) => Some(Kind::Lookup),
    }
}

/// How the process that makes events of a kind is told.
pub(super) fn maker_words(kind: Kind) -> &'static [u8] {
    match kind {
        Kind::Stop => b"0",
        Kind::Fork => b"a composition",
        Kind::New => b"new",
        Kind::Let => b"let",
        Kind::If => b"if",
        Kind::Comm => b"an input",
        Kind::Rep => b"a repeated input",
        Kind::Agent => b"agent",
        Kind::Depart | Kind::Arrive => b"migrate",
        Kind::Local => b"iflocal",
        Kind::Send | Kind::Land => b"a located message",
        Kind::Print => b"print",
        Kind::Open => b"open",
        Kind::Lookup => b"lookup",
        Kind::Post => b"a post",
    }
}

/// How a process is told.
pub(super) fn process_words(form: &ProcForm) -> &'static [u8] {
    match kind_for(form) {
        Some(kind) => maker_words(kind),
        None => b"an output",
    }
}
