//! Where a source is too deep.

ghost use Rattle.std.specs.Prelude.{IfOk, IsSomeAnd};
ghost use Rattle.source_places.specs.Holds.{Holds};

use np_lex::{Sign, Token};
use np_syntax::{List, Memory};
use source_forms::{
    Form, Kind, Open, Reading, Span, begins_value, index_at, kind_of, range_of, reading_of,
};
use source_places::{Mark, Reasons, filled, marked};
use std::alloc::Global;

/// What is too deep.
#[derive(Clone, Copy, PartialEq, Eq)]
enum Depth {
    Processes,
    Values,
    Patterns,
    Types,
}

/// The kind of the token of an index; the end behind the last one.
fn kind_at(tokens: &[Token], index: usize) -> Kind {
    match tokens.get(index) {
        Some(token) => kind_of(&token.what),
        None => Kind::End,
    }
}

/// Whether the token of an index is an operator behind a value.
fn is_operator(tokens: &[Token], index: usize) -> bool {
    let before = kind_at(tokens, index.saturating_sub(1));
    let ends_value = matches!(before, Kind::Sign(Sign::RoundClose | Sign::SquareClose))
        || begins_value(before) && !matches!(before, Kind::Sign(_));
    let operator = matches!(
        kind_at(tokens, index),
        Kind::Sign(Sign::Plus | Sign::Minus | Sign::Star | Sign::Same | Sign::Less)
    );
    operator && ends_value
}

/// The depth to which a form belongs.
fn depth_of(form: Form) -> Depth {
    match form {
        Form::Pattern => Depth::Patterns,
        Form::TupleType | Form::ChannelType => Depth::Types,
        Form::Round | Form::Tuple => Depth::Values,
        _ => Depth::Processes,
    }
}

/// The first of the forms that are open and have no form of another depth inside.
fn first_of(reading: &Reading, depth: Depth) -> usize {
    let mut first = reading.at;
    for open in reading.open.as_slice().iter().rev() {
        if depth_of(open.form) != depth {
            return first;
        }
        first = open.first;
    }
    first
}

/// Which depth is passed at a token, and which token is the first of its level 1.
fn passed_at(tokens: &[Token], reading: &Reading, index: usize) -> (Depth, usize) {
    let inner = match reading.open.as_slice().last() {
        Some(open) => depth_of(open.form),
        None => Depth::Processes,
    };
    let value = reading.inside > 0 && begins_value(kind_at(tokens, index));
    if is_operator(tokens, index) || value || inner == Depth::Values {
        return (Depth::Values, reading.value.unwrap_or(index));
    }
    if inner == Depth::Processes {
        let second: Option<&Open> = reading.open.as_slice().get(1);
        return match second {
            Some(open) => (inner, open.first),
            None => (inner, index),
        };
    }
    (inner, first_of(reading, inner))
}

fn wanted_words(depth: Depth) -> &'static [u8] {
    match depth {
        Depth::Processes => b"processes",
        Depth::Values => b"values",
        Depth::Patterns => b"patterns",
        Depth::Types => b"types",
    }
}

fn next_words(depth: Depth, kind: Kind) -> &'static [u8] {
    match depth {
        Depth::Processes if kind == Kind::Sign(Sign::Bar) => {
            b"group the processes of the bracket: `((P | Q) | (R | S))`"
        }
        Depth::Processes => b"give a part to an agent or to a `*` input of its own, further out",
        Depth::Values => b"give a part a name: `let x = .. in ..`",
        Depth::Patterns => b"bind a part to a name, and take that apart by `let`",
        Depth::Types => b"carry the parts on channels of their own",
    }
}

/// What is told of the token that passes the greatest depth.
pub fn reasons_of_depth(alloc: Global, tokens: &[Token], at: u32) -> Result<Reasons, Memory>
    ensures { IfOk result (λ reasons. IsSomeAnd reasons.refused (λ mark. Holds mark at)) }
{
    let index = index_at(tokens, at);
    let reading = reading_of(alloc, tokens.get(..index).unwrap_or(tokens))?;
    let (depth, first) = passed_at(tokens, &reading, index);
    let label = List::from_slice(alloc, b"reaches level 201")?;
    let level = List::from_slice(alloc, b"level 1")?;
    let wanted = filled(alloc, b"% of at most 200 levels", wanted_words(depth))?;
    let next = List::from_slice(alloc, next_words(depth, kind_at(tokens, index)))?;
    let found = range_of(
        tokens,
        Span {
            first: index,
            last: index,
        },
    );
    Ok(Reasons {
        refused: Some(marked(found, at as usize, label)),
        beside: Some(Mark {
            range: range_of(tokens, Span { first, last: first }),
            label: level,
        }),
        wanted,
        why: List::new(alloc),
        next,
    })
}
