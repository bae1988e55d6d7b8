//! The forms of the grammar, and how each is written.

/// A form of the grammar. A channel's name begins an output or an input.
#[derive(Clone, Copy, PartialEq, Eq)]
pub enum Form {
    Program,
    Zero,
    Bracket,
    New,
    Channel,
    Output,
    Input,
    Repeated,
    AgentForm,
    Migrate,
    IfLocal,
    Message,
    If,
    Let,
    Print,
    Round,
    Tuple,
    Pattern,
    TupleType,
    ChannelType,
}

/// How a form is written.
pub fn form_words(form: Form) -> &'static [u8] {
    match form {
        Form::Program => b"sites NAME .. ; main at NAME = PROCESS",
        Form::Zero => b"0",
        Form::Bracket => b"(PROCESS | PROCESS ..)",
        Form::New => b"new NAME : CHANNEL-TYPE in PROCESS",
        Form::Channel => b"NAME!VALUE or NAME?PATTERN -> PROCESS",
        Form::Output => b"NAME!VALUE",
        Form::Input => b"NAME?PATTERN -> PROCESS",
        Form::Repeated => b"*NAME?PATTERN -> PROCESS",
        Form::AgentForm => b"agent NAME = PROCESS in PROCESS",
        Form::Migrate => b"migrate to SITE -> PROCESS",
        Form::IfLocal => b"iflocal <AGENT>NAME!VALUE then PROCESS else PROCESS",
        Form::Message => b"<AGENT@SITE>NAME!VALUE, or ? for the site",
        Form::If => b"if VALUE then PROCESS else PROCESS",
        Form::Let => b"let PATTERN = VALUE in PROCESS",
        Form::Print => b"print VALUE",
        Form::Round => b"(VALUE)",
        Form::Tuple => b"[VALUE ..]",
        Form::Pattern => b"[PATTERN ..]",
        Form::TupleType => b"[TYPE ..]",
        Form::ChannelType => b"^TYPE, ?TYPE or !TYPE",
    }
}

/// Whether a form is one of processes.
pub fn is_process(form: Form) -> bool {
    !matches!(
        form,
        Form::Program
            | Form::Round
            | Form::Tuple
            | Form::Pattern
            | Form::TupleType
            | Form::ChannelType
    )
}
