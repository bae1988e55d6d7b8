//! What may be awaited, and the table of the forms.

use super::forms::Form;
use super::kind::Kind;
use np_lex::{Key, Sign};

/// What is awaited: a token of a kind, a part of the grammar, or the end of a form.
#[derive(Clone, Copy)]
pub(super) enum Symbol {
    Take(Kind),
    /// Further sites, and the sign behind them.
    Names,
    Process,
    /// Further processes of a bracket, and the sign behind them.
    Bars,
    /// What stands behind a channel's name.
    Behind,
    Value,
    EndValue,
    Comparison,
    Compared,
    Sum,
    Terms,
    Product,
    Factors,
    Atom,
    /// An atom that stands for a value by itself.
    Alone,
    /// The site of a message.
    Place,
    Values(u32),
    Pattern,
    Patterns(u32),
    Type,
    Types(u32),
    ChannelType,
    Close,
}

const ZERO: [Symbol; 2] = [Symbol::Take(Kind::Zero), Symbol::Close];

const BRACKET: [Symbol; 5] = [
    Symbol::Take(Kind::Sign(Sign::RoundOpen)),
    Symbol::Process,
    Symbol::Take(Kind::Sign(Sign::Bar)),
    Symbol::Process,
    Symbol::Bars,
];

const NEW: [Symbol; 7] = [
    Symbol::Take(Kind::Word(Key::New)),
    Symbol::Take(Kind::Name),
    Symbol::Take(Kind::Sign(Sign::Colon)),
    Symbol::ChannelType,
    Symbol::Take(Kind::Word(Key::In)),
    Symbol::Process,
    Symbol::Close,
];

const OUTPUT: [Symbol; 3] = [
    Symbol::Take(Kind::Sign(Sign::Bang)),
    Symbol::Value,
    Symbol::Close,
];

const INPUT: [Symbol; 5] = [
    Symbol::Take(Kind::Sign(Sign::Query)),
    Symbol::Pattern,
    Symbol::Take(Kind::Sign(Sign::Arrow)),
    Symbol::Process,
    Symbol::Close,
];

const REPEATED: [Symbol; 7] = [
    Symbol::Take(Kind::Sign(Sign::Star)),
    Symbol::Take(Kind::Name),
    Symbol::Take(Kind::Sign(Sign::Query)),
    Symbol::Pattern,
    Symbol::Take(Kind::Sign(Sign::Arrow)),
    Symbol::Process,
    Symbol::Close,
];

const AGENT: [Symbol; 7] = [
    Symbol::Take(Kind::Word(Key::AgentWord)),
    Symbol::Take(Kind::Name),
    Symbol::Take(Kind::Sign(Sign::Equals)),
    Symbol::Process,
    Symbol::Take(Kind::Word(Key::In)),
    Symbol::Process,
    Symbol::Close,
];

const MIGRATE: [Symbol; 6] = [
    Symbol::Take(Kind::Word(Key::Migrate)),
    Symbol::Take(Kind::Word(Key::To)),
    Symbol::Value,
    Symbol::Take(Kind::Sign(Sign::Arrow)),
    Symbol::Process,
    Symbol::Close,
];

const IF_LOCAL: [Symbol; 12] = [
    Symbol::Take(Kind::Word(Key::IfLocal)),
    Symbol::Take(Kind::Sign(Sign::Less)),
    Symbol::Alone,
    Symbol::Take(Kind::Sign(Sign::Greater)),
    Symbol::Take(Kind::Name),
    Symbol::Take(Kind::Sign(Sign::Bang)),
    Symbol::Value,
    Symbol::Take(Kind::Word(Key::Then)),
    Symbol::Process,
    Symbol::Take(Kind::Word(Key::Else)),
    Symbol::Process,
    Symbol::Close,
];

const MESSAGE: [Symbol; 9] = [
    Symbol::Take(Kind::Sign(Sign::Less)),
    Symbol::Alone,
    Symbol::Take(Kind::Sign(Sign::At)),
    Symbol::Place,
    Symbol::Take(Kind::Sign(Sign::Greater)),
    Symbol::Take(Kind::Name),
    Symbol::Take(Kind::Sign(Sign::Bang)),
    Symbol::Value,
    Symbol::Close,
];

const IF: [Symbol; 7] = [
    Symbol::Take(Kind::Word(Key::If)),
    Symbol::Value,
    Symbol::Take(Kind::Word(Key::Then)),
    Symbol::Process,
    Symbol::Take(Kind::Word(Key::Else)),
    Symbol::Process,
    Symbol::Close,
];

const LET: [Symbol; 7] = [
    Symbol::Take(Kind::Word(Key::Let)),
    Symbol::Pattern,
    Symbol::Take(Kind::Sign(Sign::Equals)),
    Symbol::Value,
    Symbol::Take(Kind::Word(Key::In)),
    Symbol::Process,
    Symbol::Close,
];

const PRINT: [Symbol; 3] = [
    Symbol::Take(Kind::Word(Key::Print)),
    Symbol::Value,
    Symbol::Close,
];

const ROUND: [Symbol; 4] = [
    Symbol::Take(Kind::Sign(Sign::RoundOpen)),
    Symbol::Value,
    Symbol::Take(Kind::Sign(Sign::RoundClose)),
    Symbol::Close,
];

const TUPLE: [Symbol; 2] = [
    Symbol::Take(Kind::Sign(Sign::SquareOpen)),
    Symbol::Values(0),
];

const PATTERN: [Symbol; 2] = [
    Symbol::Take(Kind::Sign(Sign::SquareOpen)),
    Symbol::Patterns(0),
];

const TUPLE_TYPE: [Symbol; 2] = [Symbol::Take(Kind::Sign(Sign::SquareOpen)), Symbol::Types(0)];

/// What a form is awaited to be written with.
pub(super) fn begun_by(form: Form) -> &'static [Symbol] {
    match form {
        Form::Zero => &ZERO,
        Form::Bracket => &BRACKET,
        Form::New => &NEW,
        Form::Output => &OUTPUT,
        Form::Input => &INPUT,
        Form::Repeated => &REPEATED,
        Form::AgentForm => &AGENT,
        Form::Migrate => &MIGRATE,
        Form::IfLocal => &IF_LOCAL,
        Form::Message => &MESSAGE,
        Form::If => &IF,
        Form::Let => &LET,
        Form::Print => &PRINT,
        Form::Round => &ROUND,
        Form::Tuple => &TUPLE,
        Form::Pattern => &PATTERN,
        Form::TupleType => &TUPLE_TYPE,
        Form::Program | Form::Channel | Form::ChannelType => &[],
    }
}

/// The form of processes that begins with a token.
pub fn begun_process(kind: Kind) -> Option<Form> {
    match kind {
        Kind::Zero => Some(Form::Zero),
        Kind::Name => Some(Form::Channel),
        Kind::Sign(Sign::RoundOpen) => Some(Form::Bracket),
        Kind::Sign(Sign::Star) => Some(Form::Repeated),
        Kind::Sign(Sign::Less) => Some(Form::Message),
        Kind::Word(Key::New) => Some(Form::New),
        Kind::Word(Key::AgentWord) => Some(Form::AgentForm),
        Kind::Word(Key::Migrate) => Some(Form::Migrate),
        Kind::Word(Key::IfLocal) => Some(Form::IfLocal),
        Kind::Word(Key::If) => Some(Form::If),
        Kind::Word(Key::Let) => Some(Form::Let),
        Kind::Word(Key::Print) => Some(Form::Print),
        _ => None,
    }
}

/// The form of values that begins with a token.
pub(super) fn begun_value(kind: Kind) -> Option<Form> {
    match kind {
        Kind::Sign(Sign::RoundOpen) => Some(Form::Round),
        Kind::Sign(Sign::SquareOpen) => Some(Form::Tuple),
        _ => None,
    }
}

/// The form of types that begins with a token.
pub(super) fn begun_type(kind: Kind) -> Option<Form> {
    match kind {
        Kind::Sign(Sign::SquareOpen) => Some(Form::TupleType),
        _ if is_cap(kind) => Some(Form::ChannelType),
        _ => None,
    }
}

/// Whether a token is one of the signs before what a channel carries.
pub(super) fn is_cap(kind: Kind) -> bool {
    matches!(kind, Kind::Sign(Sign::Caret | Sign::Query | Sign::Bang))
}

/// Whether a token is a type by itself.
pub(super) fn is_ground(kind: Kind) -> bool {
    matches!(
        kind,
        Kind::Word(Key::IntType | Key::BoolType | Key::StringType | Key::SiteType | Key::AgentType)
    )
}

/// Whether a type begins with a token.
pub fn begins_type(kind: Kind) -> bool {
    is_ground(kind) || is_cap(kind) || kind == Kind::Sign(Sign::SquareOpen)
}

/// Whether a value begins with a token.
pub fn begins_value(kind: Kind) -> bool {
    matches!(
        kind,
        Kind::Zero
            | Kind::Number
            | Kind::Str
            | Kind::Name
            | Kind::Word(Key::True | Key::False | Key::Main)
            | Kind::Sign(Sign::RoundOpen | Sign::SquareOpen)
    )
}

/// Whether a pattern begins with a token.
pub fn begins_pattern(kind: Kind) -> bool {
    matches!(
        kind,
        Kind::Name | Kind::Sign(Sign::Underscore | Sign::SquareOpen)
    )
}
