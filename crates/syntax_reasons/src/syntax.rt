//! Where tokens stop being those of a program.

ghost use Rattle.std.specs.Prelude.{◌≤◌, length, IfOk};
ghost use Rattle.np_syntax.specs.declared.limits.TheConstants.{LONGEST_SOURCE};
ghost use Rattle.syntax_reasons.specs.Reasons.{MarksIn};

use super::advice::{filling, row_for};
use super::row::{Fill, Row};
use super::view::View;
use np_lex::Token;
use np_syntax::{List, Memory, Text};
use source_forms::{Form, Kind, Open, Reading, Span, form_words, range_of, reading_of};
use source_places::{Mark, Range, Reasons, filled, marked};
use std::alloc::Global;
use wanted_tokens::{phrase_of, wanted_at};

/// How the token at fault is told.
fn found_text(view: &View<'_>) -> Result<Text, Memory> {
    let text = view.text_at(view.reading.at);
    match view.kind() {
        Kind::Zero => List::from_slice(view.alloc, b"the number 0"),
        Kind::Number => List::from_slice(view.alloc, b"a number"),
        Kind::Str => List::from_slice(view.alloc, b"a string"),
        Kind::Name => List::from_slice(view.alloc, b"a name"),
        Kind::End => List::from_slice(view.alloc, b"the source ends behind this"),
        Kind::Word(_) => filled(view.alloc, b"the keyword `%`", text),
        Kind::Sign(_) => filled(view.alloc, b"the sign `%`", text),
    }
}

/// The range of a token.
fn token_range(view: &View<'_>, index: usize) -> Range {
    range_of(
        view.tokens,
        Span {
            first: index,
            last: index,
        },
    )
}

/// The mark on the token at fault, or behind the last one where the source ends.
fn refused_mark(view: &View<'_>, at: usize) -> Result<Option<Mark>, Memory>
    ensures { IfOk result (MarksIn view.now.bytes.now at) }
{
    let label = found_text(view)?;
    let index = view.reading.at;
    if view.kind() != Kind::End {
        return Ok(Some(marked(token_range(view, index), at, label)));
    }
    let end = token_range(view, index.saturating_sub(1)).to;
    let range = Range {
        from: end,
        to: end.saturating_add(1),
    };
    if at < view.bytes.len() {
        return Ok(Some(marked(range, at, label)));
    }
    if index == 0 {
        return Ok(None);
    }
    Ok(Some(Mark { range, label }))
}

/// The mark on the first token of a form that is open.
fn begun_mark(view: &View<'_>, open: Open) -> Result<Mark, Memory> {
    let label = filled(view.alloc, b"begins %", form_words(open.form))?;
    Ok(Mark {
        range: token_range(view, open.first),
        label,
    })
}

/// The mark on the first token of a form that has ended.
fn ended_mark(view: &View<'_>, open: Open) -> Result<Mark, Memory> {
    let range = token_range(view, open.first);
    let last = token_range(view, view.reading.at.saturating_sub(1));
    let label = if open.form != Form::Zero && range.from != last.from {
        filled(
            view.alloc,
            b"began %, which ends before the mark",
            form_words(open.form),
        )?
    } else {
        List::from_slice(view.alloc, b"a whole process")?
    };
    Ok(Mark { range, label })
}

/// The form of an output, a print or a message that has ended.
fn ended_value(view: &View<'_>) -> Option<Open> {
    view.reading.ended.as_slice().iter().copied().find(|open| matches!(
        open.form,
        Form::Print | Form::Output | Form::Message
    ))
}

/// The mark on a form that explains what was wanted.
fn beside_mark(view: &View<'_>, of_ended: bool) -> Result<Mark, Memory> {
    if of_ended && let Some(open) = ended_value(view) {
        return begun_mark(view, open);
    }
    let open = view.form();
    let last = view.reading.ended.as_slice().last();
    match last {
        Some(outermost) if open.form == Form::Program && view.ended().is_some() => {
            ended_mark(view, *outermost)
        }
        _ => begun_mark(view, open),
    }
}

/// The advice of a row, with its gap filled.
fn advice_of(view: &View<'_>, row: Option<Row>) -> Result<Text, Memory> {
    let Some(row) = row else {
        return Ok(List::new(view.alloc));
    };
    if row.fill == Fill::Nothing {
        return List::from_slice(view.alloc, row.words);
    }
    let fill = filling(view, row.fill)?;
    filled(view.alloc, row.words, fill.as_slice())
}

/// What is told of the token that was seen.
fn reasons_of(view: &View<'_>, at: usize) -> Result<Reasons, Memory>
    ensures { IfOk result (λ reasons. MarksIn view.now.bytes.now at reasons.refused) }
{
    let row = row_for(view)?;
    let of_ended = match row {
        Some(row) => row.of_ended,
        None => false,
    };
    let refused = refused_mark(view, at)?;
    let beside = match refused {
        Some(_) => Some(beside_mark(view, of_ended)?),
        None => None,
    };
    let wanted = phrase_of(view.alloc, view.wanted)?;
    let next = advice_of(view, row)?;
    Ok(Reasons {
        refused,
        beside,
        wanted,
        why: List::new(view.alloc),
        next,
    })
}

/// What is told where the tokens of a source stop being those of a program.
pub fn reasons_of_syntax(
    alloc: Global,
    bytes: &[u8],
    tokens: &[Token],
    at: usize,
) -> Result<Reasons, Memory>
    requires short { length bytes.now ≤ LONGEST_SOURCE }
    requires within { at ≤ length bytes.now }
    ensures { IfOk result (λ reasons. MarksIn bytes.now at reasons.refused) }
{
    let reading: Reading = reading_of(alloc, tokens)?;
    let wanted = wanted_at(alloc, bytes, at)?;
    reasons_of(
        &View {
            alloc,
            bytes,
            tokens,
            reading: &reading,
            wanted: wanted.as_slice(),
        },
        at,
    )
}
