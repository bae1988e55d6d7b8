//! The table of what to do next where a token cannot stand, continued: what has ended, and what is wanted.

use super::row::{ANY, Also, Fill, Row};
use np_lex::{Key, Sign};
use source_forms::{Form, Kind};

/// The advices behind the others, in their order.
pub(super) const FURTHER_ROWS: [Row; 26] = [
    Row {
        token: &[Kind::Word(Key::Main)],
        has: &[Kind::Word(Key::Print)],
        words: b"`main` is the first agent and no channel: to send to it, write `<main@?>NAME!VALUE`",
        ..ANY
    },
    Row {
        token: &[Kind::Sign(Sign::RoundOpen)],
        has: &[Kind::Sign(Sign::Underscore)],
        words: b"tuples stand in square brackets, without commas: `[x y]`",
        ..ANY
    },
    Row {
        token: &[
            Kind::Zero,
            Kind::Number,
            Kind::Str,
            Kind::Word(Key::True),
            Kind::Word(Key::False),
            Kind::Word(Key::Main),
            Kind::Name,
            Kind::Sign(Sign::RoundOpen),
            Kind::Sign(Sign::SquareOpen),
        ],
        form: &[Form::Round],
        words: b"tuples stand in square brackets, without commas: `[x y]`",
        ..ANY
    },
    Row {
        token: &[Kind::Sign(Sign::RoundOpen)],
        before: &[Kind::Name],
        has: &[Kind::Sign(Sign::Plus)],
        words: b"there are no functions: send on a channel, and take the answer from another",
        ..ANY
    },
    Row {
        token: &[Kind::Sign(Sign::Semi)],
        also: Also::Ended,
        words: b"there is no sequence: `(P | Q)` does both, and `->` follows an input",
        ..ANY
    },
    Row {
        token: &[Kind::Sign(Sign::Arrow)],
        ended: &[Form::Output, Form::Print, Form::Message],
        words: b"nothing goes on behind this: to do more, write `(P | Q)`",
        of_ended: true,
        ..ANY
    },
    Row {
        token: &[Kind::Zero, Kind::Number],
        ended: &[Form::Print],
        also: Also::BehindZero,
        words: b"a number has no `0` in front",
        ..ANY
    },
    Row {
        token: &[
            Kind::Zero,
            Kind::Number,
            Kind::Str,
            Kind::Word(Key::True),
            Kind::Word(Key::False),
            Kind::Word(Key::Main),
            Kind::Name,
            Kind::Sign(Sign::RoundOpen),
            Kind::Sign(Sign::SquareOpen),
        ],
        ended: &[Form::Print],
        also: Also::NoProcess,
        words: b"`print` takes one value: several make one tuple, `print [x y]`",
        of_ended: true,
        ..ANY
    },
    Row {
        token: &[
            Kind::Zero,
            Kind::Number,
            Kind::Str,
            Kind::Word(Key::True),
            Kind::Word(Key::False),
            Kind::Word(Key::Main),
            Kind::Name,
            Kind::Sign(Sign::RoundOpen),
            Kind::Sign(Sign::SquareOpen),
        ],
        ended: &[Form::Output, Form::Message],
        also: Also::NoProcess,
        words: b"one value is sent: several make one tuple, `NAME![x y]`",
        of_ended: true,
        ..ANY
    },
    Row {
        token: &[
            Kind::Zero,
            Kind::Sign(Sign::RoundOpen),
            Kind::Word(Key::New),
            Kind::Name,
            Kind::Sign(Sign::Star),
            Kind::Word(Key::AgentWord),
            Kind::Word(Key::Migrate),
            Kind::Word(Key::IfLocal),
            Kind::Sign(Sign::Less),
            Kind::Word(Key::If),
            Kind::Word(Key::Let),
            Kind::Word(Key::Print),
        ],
        also: Also::EndedInside,
        words: b"a process ends before this one: put `|` between them",
        ..ANY
    },
    Row {
        token: &[
            Kind::Zero,
            Kind::Sign(Sign::RoundOpen),
            Kind::Word(Key::New),
            Kind::Name,
            Kind::Sign(Sign::Star),
            Kind::Word(Key::AgentWord),
            Kind::Word(Key::Migrate),
            Kind::Word(Key::IfLocal),
            Kind::Sign(Sign::Less),
            Kind::Word(Key::If),
            Kind::Word(Key::Let),
            Kind::Word(Key::Print),
        ],
        also: Also::Ended,
        words: b"a process ends before this one: to do both, write `(PROCESS | PROCESS)`",
        ..ANY
    },
    Row {
        before: &[Kind::Sign(Sign::Bar)],
        has: &[Kind::Word(Key::Print)],
        words: b"write a process behind `|`, or leave the `|` out",
        ..ANY
    },
    Row {
        has: &[Kind::Word(Key::Print)],
        words: b"write a process here; `0` is the one that does nothing",
        ..ANY
    },
    Row {
        has: &[Kind::Word(Key::In)],
        words: b"write `in` here, and then the process that goes on",
        ..ANY
    },
    Row {
        has: &[Kind::Word(Key::Else)],
        words: b"both branches are written: `else 0` does nothing",
        ..ANY
    },
    Row {
        has: &[Kind::Word(Key::Then)],
        words: b"write `then` and the process for the case that it is true",
        ..ANY
    },
    Row {
        has: &[Kind::Str],
        lacks: &[Kind::Sign(Sign::Plus), Kind::Sign(Sign::SquareClose)],
        words: b"write a value; `[]` is the one with nothing in it",
        ..ANY
    },
    Row {
        has: &[Kind::Sign(Sign::Arrow)],
        words: b"write `->` and the process that goes on",
        ..ANY
    },
    Row {
        has: &[Kind::Sign(Sign::SquareClose)],
        words: b"close the bracket with `]`",
        ..ANY
    },
    Row {
        has: &[Kind::Sign(Sign::RoundClose)],
        form: &[Form::Round],
        words: b"close the bracket with `)`",
        ..ANY
    },
    Row {
        form: &[Form::Bracket],
        words: b"write `|` and a further process, or close the bracket with `)`",
        ..ANY
    },
    Row {
        has: &[Kind::Word(Key::IntType)],
        words: b"write what is carried: `Int`, `Bool`, `String`, `Site`, `Agent`, a channel or a tuple",
        ..ANY
    },
    Row {
        has: &[Kind::Sign(Sign::Underscore)],
        words: b"write a name, `_` for what is not used, or a tuple of these",
        ..ANY
    },
    Row {
        token: &[
            Kind::Name,
            Kind::Sign(Sign::Underscore),
            Kind::Sign(Sign::SquareOpen),
        ],
        has: &[Kind::Sign(Sign::Equals)],
        only: &[Kind::Sign(Sign::Equals)],
        form: &[Form::Let],
        words: b"`let` binds one pattern, and there are no functions: several values are `let [x y] = ..`",
        ..ANY
    },
    Row {
        form: &[Form::Program],
        words: b"a source is written `sites NAME .. ; main at NAME = PROCESS`",
        ..ANY
    },
    Row {
        also: Also::One,
        words: b"write % here",
        fill: Fill::Wanted,
        ..ANY
    },
];
