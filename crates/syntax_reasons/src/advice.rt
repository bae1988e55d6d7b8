//! Which advice is given.

use super::further_rows::FURTHER_ROWS;
use super::row::{Also, Fill, Row};
use super::rows::ROWS;
use super::view::{View, capital, lowered};
use np_lex::{Key, Sign};
use np_syntax::{List, Memory, Text};
use source_forms::{Form, KINDS, Kind, begun_process, kind_text};
use wanted_tokens::phrase_of;

/// Whether a list asks for nothing, or has this.
fn allows(list: &[Kind], kind: Kind) -> bool {
    list.is_empty() || list.contains(&kind)
}

fn allows_form(list: &[Form], form: Option<Form>) -> bool {
    match form {
        Some(form) => list.is_empty() || list.contains(&form),
        None => list.is_empty(),
    }
}

/// Whether a text is how a keyword is written; of one of types where `types` says so.
fn is_keyword(text: &[u8], types: bool) -> bool {
    KINDS.iter().any(|kind| match kind {
        Kind::Word(key) => {
            let of_types = matches!(
                *key,
                Key::IntType | Key::BoolType | Key::StringType | Key::SiteType | Key::AgentType
            );
            (of_types || !types) && kind_text(*kind) == text
        }
        _ => false,
    })
}

/// Whether a keyword at fault could have been meant as a name.
fn stands_for_name(view: &View<'_>) -> bool {
    let goes_on = matches!(view.kind(), Kind::Word(Key::Main | Key::At));
    matches!(view.kind(), Kind::Word(_)) && !(goes_on && view.form().form == Form::Program)
}

/// Whether it is sure that the token at fault begins a process.
fn begins_process(view: &View<'_>) -> bool {
    match view.kind() {
        Kind::Name => matches!(
            view.kind_at(view.reading.at.saturating_add(1)),
            Kind::Sign(Sign::Bang | Sign::Query)
        ),
        Kind::Zero | Kind::Sign(Sign::RoundOpen) => false,
        kind => begun_process(kind).is_some(),
    }
}

/// Whether the number 0 stands directly before the token at fault.
fn is_behind_zero(view: &View<'_>) -> bool {
    let at = view.reading.at;
    let before = view.tokens.get(at.saturating_sub(1));
    match (before, view.tokens.get(at)) {
        (Some(before), Some(token)) => view.before() == Some(Kind::Zero) && before.end == token.at,
        _ => false,
    }
}

/// Whether what else a row asks for is the case.
fn holds(view: &View<'_>, also: Also) -> Result<bool, Memory> {
    let alloc = view.alloc;
    Ok(match also {
        Also::Nothing => true,
        Also::Keyword => stands_for_name(view),
        Also::TypeName => is_keyword(capital(alloc, view.name())?.as_slice(), true),
        Also::KeywordName => is_keyword(lowered(alloc, view.name())?.as_slice(), false),
        Also::Ended => view.ended().is_some(),
        Also::EndedInside => view.ended().is_some() && view.in_bracket(),
        Also::EndedOutside => view.ended().is_some() && !view.in_bracket(),
        Also::Full => view.reading.full,
        Also::Compared => view.reading.compared,
        Also::NoMessage => view.form().form != Form::Message,
        Also::BehindZero => is_behind_zero(view),
        Also::NoProcess => !begins_process(view),
        Also::One => view.wanted.len() == 1,
    })
}

/// Whether the tokens round the place are those of a row.
fn fits_tokens(view: &View<'_>, row: &Row) -> bool {
    let before = match view.before() {
        Some(kind) => allows(row.before, kind),
        None => row.before.is_empty(),
    };
    allows(row.token, view.kind())
        && before
        && allows(row.next, view.kind_at(view.reading.at.saturating_add(1)))
}

/// Whether what is wanted, and the forms that are open and have ended, are those of a row.
fn fits_forms(view: &View<'_>, row: &Row) -> bool {
    let ended = view.ended().map(|open| open.form);
    row.has.iter().all(|kind| view.wanted.contains(kind))
        && !row.lacks.iter().any(|kind| view.wanted.contains(kind))
        && (row.only.is_empty() || view.wanted.iter().all(|kind| row.only.contains(kind)))
        && allows_form(row.form, Some(view.form().form))
        && allows_form(row.ended, ended)
}

/// The first of some rows that fits.
fn first_fit(view: &View<'_>, rows: &[Row]) -> Result<Option<Row>, Memory> {
    for row in rows {
        if fits_tokens(view, row) && fits_forms(view, row) && holds(view, row.also)? {
            return Ok(Some(*row));
        }
    }
    Ok(None)
}

/// The first row of the table that fits.
pub(super) fn row_for(view: &View<'_>) -> Result<Option<Row>, Memory> {
    match first_fit(view, ROWS.as_slice())? {
        Some(row) => Ok(Some(row)),
        None => first_fit(view, FURTHER_ROWS.as_slice()),
    }
}

/// What fills the gap of an advice.
pub(super) fn filling(view: &View<'_>, fill: Fill) -> Result<Text, Memory> {
    let alloc = view.alloc;
    let at = view.reading.at;
    match fill {
        Fill::Nothing => Ok(List::new(alloc)),
        Fill::Token => List::from_slice(alloc, view.text_at(at)),
        Fill::Next => List::from_slice(alloc, view.text_at(at.saturating_add(1))),
        Fill::Name => List::from_slice(alloc, view.name()),
        Fill::Capital => capital(alloc, view.name()),
        Fill::Lowered => lowered(alloc, view.name()),
        Fill::TypeStart => match view.kind() {
            Kind::Sign(Sign::SquareOpen) => List::from_slice(alloc, b"[..]"),
            _ => List::from_slice(alloc, view.text_at(at)),
        },
        Fill::Wanted => phrase_of(alloc, view.wanted),
    }
}
