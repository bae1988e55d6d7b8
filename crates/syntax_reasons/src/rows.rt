//! The table of what to do next where a token cannot stand: what is often meant otherwise.

use super::row::{ANY, Also, Fill, Row};
use np_lex::{Key, Sign};
use source_forms::{Form, Kind};

/// The advices in their order: the first one that fits is given.
pub(super) const ROWS: [Row; 29] = [
    Row {
        has: &[Kind::Name],
        only: &[Kind::Name, Kind::Sign(Sign::Semi)],
        also: Also::Keyword,
        words: b"`%` is a keyword, so nothing is named so: take another name",
        fill: Fill::Token,
        ..ANY
    },
    Row {
        token: &[
            Kind::Word(Key::IntType),
            Kind::Word(Key::BoolType),
            Kind::Word(Key::StringType),
            Kind::Word(Key::SiteType),
            Kind::Word(Key::AgentType),
            Kind::Sign(Sign::SquareOpen),
        ],
        has: &[
            Kind::Sign(Sign::Caret),
            Kind::Sign(Sign::Query),
            Kind::Sign(Sign::Bang),
        ],
        only: &[
            Kind::Sign(Sign::Caret),
            Kind::Sign(Sign::Query),
            Kind::Sign(Sign::Bang),
        ],
        words: b"`new` makes a channel, so a sign stands before what it carries: `^%`",
        fill: Fill::TypeStart,
        ..ANY
    },
    Row {
        has: &[
            Kind::Sign(Sign::Caret),
            Kind::Sign(Sign::Query),
            Kind::Sign(Sign::Bang),
        ],
        only: &[
            Kind::Sign(Sign::Caret),
            Kind::Sign(Sign::Query),
            Kind::Sign(Sign::Bang),
        ],
        words: b"write `^` (to send and receive), `?` (to receive) or `!` (to send), and what is carried",
        ..ANY
    },
    Row {
        token: &[Kind::Name],
        has: &[Kind::Word(Key::IntType)],
        also: Also::TypeName,
        words: b"this type is written `%`",
        fill: Fill::Capital,
        ..ANY
    },
    Row {
        token: &[Kind::Name],
        has: &[Kind::Word(Key::IntType)],
        words: b"types get no names: write out `Int`, `Bool`, `String`, `Site`, `Agent`, a channel or a tuple",
        ..ANY
    },
    Row {
        form: &[Form::Channel],
        also: Also::KeywordName,
        words: b"keywords are written in small letters: `%`",
        fill: Fill::Lowered,
        ..ANY
    },
    Row {
        token: &[Kind::Sign(Sign::Equals)],
        form: &[Form::Channel],
        words: b"a name is bound by `let % = VALUE in PROCESS`",
        fill: Fill::Name,
        ..ANY
    },
    Row {
        form: &[Form::Channel],
        words: b"behind a channel stands `!` to send or `?` to receive",
        ..ANY
    },
    Row {
        token: &[Kind::Sign(Sign::Bar)],
        also: Also::EndedOutside,
        words: b"processes side by side stand in a bracket: `(PROCESS | PROCESS)`",
        ..ANY
    },
    Row {
        token: &[Kind::Sign(Sign::RoundClose)],
        has: &[Kind::Sign(Sign::Bar)],
        form: &[Form::Bracket],
        words: b"a bracket holds two or more: leave it out, or write `|` and another",
        ..ANY
    },
    Row {
        token: &[Kind::End],
        has: &[Kind::Sign(Sign::RoundClose)],
        form: &[Form::Bracket],
        words: b"close the bracket with `)`",
        ..ANY
    },
    Row {
        also: Also::Full,
        words: b"at most 16 components: put some of them into a tuple of their own",
        ..ANY
    },
    Row {
        token: &[Kind::Sign(Sign::Minus)],
        next: &[Kind::Zero, Kind::Number],
        has: &[Kind::Str],
        words: b"numbers have no sign: write `0 - %`",
        fill: Fill::Next,
        ..ANY
    },
    Row {
        also: Also::Compared,
        words: b"comparisons do not follow each other: put one into round brackets, or use two `if`s",
        ..ANY
    },
    Row {
        token: &[Kind::Sign(Sign::Equals)],
        has: &[Kind::Sign(Sign::Same)],
        words: b"equality is written `==`",
        ..ANY
    },
    Row {
        token: &[Kind::Sign(Sign::Same)],
        has: &[Kind::Sign(Sign::Equals)],
        only: &[Kind::Sign(Sign::Equals)],
        words: b"what is bound is written with one `=`",
        ..ANY
    },
    Row {
        token: &[Kind::Sign(Sign::Greater)],
        has: &[Kind::Sign(Sign::Less)],
        also: Also::NoMessage,
        words: b"there is no `>`: write the greater side behind `<`",
        ..ANY
    },
    Row {
        token: &[Kind::Sign(Sign::Equals)],
        before: &[Kind::Sign(Sign::Less)],
        words: b"there is no `<=`: ask for the opposite, and change the two branches",
        ..ANY
    },
    Row {
        token: &[Kind::Sign(Sign::Bang)],
        next: &[Kind::Sign(Sign::Equals)],
        has: &[Kind::Sign(Sign::Same)],
        words: b"there is no `!=`: compare with `==`, and change the two branches",
        ..ANY
    },
    Row {
        token: &[Kind::Sign(Sign::Greater)],
        has: &[Kind::Sign(Sign::At)],
        only: &[Kind::Sign(Sign::At)],
        form: &[Form::Message],
        words: b"name the site, `<AGENT@SITE>`, or write `<AGENT@?>` for wherever the agent is",
        ..ANY
    },
    Row {
        token: &[Kind::Sign(Sign::Greater)],
        has: &[Kind::Sign(Sign::Query)],
        form: &[Form::Message],
        words: b"write the site behind `@`, or `?` for wherever the agent is",
        ..ANY
    },
    Row {
        has: &[Kind::Sign(Sign::Bang)],
        only: &[Kind::Sign(Sign::Bang)],
        form: &[Form::Message, Form::IfLocal],
        words: b"another agent is only sent to: behind the channel stands `!`",
        ..ANY
    },
    Row {
        token: &[Kind::Sign(Sign::Bang)],
        form: &[Form::Repeated],
        words: b"only an input is repeated: `*NAME?PATTERN -> PROCESS`",
        ..ANY
    },
    Row {
        has: &[Kind::Word(Key::In)],
        only: &[Kind::Word(Key::In)],
        words: b"write `in` here, and then the process that goes on",
        ..ANY
    },
    Row {
        token: &[
            Kind::Zero,
            Kind::Sign(Sign::RoundOpen),
            Kind::Word(Key::New),
            Kind::Name,
            Kind::Sign(Sign::Star),
            Kind::Word(Key::AgentWord),
            Kind::Word(Key::Migrate),
            Kind::Word(Key::IfLocal),
            Kind::Sign(Sign::Less),
            Kind::Word(Key::If),
            Kind::Word(Key::Let),
            Kind::Word(Key::Print),
            Kind::Sign(Sign::Semi),
        ],
        has: &[Kind::Word(Key::In)],
        form: &[Form::Let],
        words: b"write `in` behind the value, and then the process that goes on",
        ..ANY
    },
    Row {
        token: &[
            Kind::Zero,
            Kind::Word(Key::New),
            Kind::Name,
            Kind::Sign(Sign::Star),
            Kind::Word(Key::AgentWord),
            Kind::Word(Key::Migrate),
            Kind::Word(Key::IfLocal),
            Kind::Sign(Sign::Less),
            Kind::Word(Key::If),
            Kind::Word(Key::Let),
            Kind::Word(Key::Print),
        ],
        has: &[Kind::Sign(Sign::Arrow)],
        words: b"write `->` before the process that goes on",
        ..ANY
    },
    Row {
        has: &[Kind::Sign(Sign::Colon)],
        only: &[Kind::Sign(Sign::Colon)],
        words: b"say what the channel carries: `new NAME : ^TYPE in PROCESS`",
        ..ANY
    },
    Row {
        token: &[
            Kind::Zero,
            Kind::Number,
            Kind::Str,
            Kind::Word(Key::True),
            Kind::Word(Key::False),
        ],
        has: &[Kind::Sign(Sign::Underscore)],
        words: b"a pattern compares nothing: bind a name, and ask with `if`",
        ..ANY
    },
    Row {
        token: &[Kind::Word(Key::Main)],
        has: &[Kind::Sign(Sign::Underscore)],
        words: b"`main` is the first agent and no channel: to send to it, write `<main@?>NAME!VALUE`",
        ..ANY
    },
];
