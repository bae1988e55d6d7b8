//! The tokens that a part of a source is written with.

use np_lex::{Key, Sign, Token, What};
use np_syntax::{Expr, ExprForm, Pat};
use source_places::Range;

/// The indices of the first and of the last token of a part.
#[derive(Clone, Copy)]
pub struct Span {
    pub first: usize,
    pub last: usize,
}

/// Tokens are halved so often: more than enough for as many as a source may have.
const HALVINGS: usize = 64;

/// The index of the first token that does not begin before an offset.
pub fn index_at(tokens: &[Token], at: u32) -> usize {
    let mut low: usize = 0;
    let mut high = tokens.len();
    for _ in 0..HALVINGS {
        if high <= low {
            return low;
        }
        let middle = low.saturating_add(high) / 2;
        match tokens.get(middle) {
            Some(token) if token.at < at => low = middle.saturating_add(1),
            _ => high = middle,
        }
    }
    low
}

/// The range of the tokens from one to another.
pub fn range_of(tokens: &[Token], span: Span) -> Range {
    let from = match tokens.get(span.first) {
        Some(token) => token.at as usize,
        None => 0,
    };
    let to = match tokens.get(span.last) {
        Some(token) => token.end as usize,
        None => from,
    };
    Range { from, to }
}

/// How a token is written.
pub fn token_text<'a>(bytes: &'a [u8], tokens: &[Token], index: usize) -> &'a [u8] {
    match tokens.get(index) {
        Some(token) => bytes
            .get(token.at as usize..token.end as usize)
            .unwrap_or(&[]),
        None => &[],
    }
}

fn is_sign(tokens: &[Token], index: usize, wanted: Sign) -> bool {
    match tokens.get(index) {
        Some(token) => matches!(&token.what, What::Sign(sign) if *sign == wanted),
        None => false,
    }
}

/// How many of a sign stand side by side from an index on.
fn signs_behind(tokens: &[Token], index: usize, wanted: Sign) -> usize {
    let rest = tokens.get(index..).unwrap_or(&[]);
    rest.iter()
        .take_while(|token| matches!(&token.what, What::Sign(sign) if *sign == wanted))
        .count()
}

/// The index of the first token from an index on that is this sign.
pub fn sign_behind(tokens: &[Token], index: usize, wanted: Sign) -> usize {
    let rest = tokens.get(index..).unwrap_or(&[]);
    let before = rest
        .iter()
        .take_while(|token| !matches!(&token.what, What::Sign(sign) if *sign == wanted))
        .count();
    index.saturating_add(before)
}

/// The index of the token that closes the square bracket at an index.
fn closed_at(tokens: &[Token], first: usize) -> usize {
    let mut depth: usize = 0;
    for index in first..tokens.len() {
        if is_sign(tokens, index, Sign::SquareOpen) {
            depth = depth.saturating_add(1);
        }
        if is_sign(tokens, index, Sign::SquareClose) {
            if depth <= 1 {
                return index;
            }
            depth = depth.saturating_sub(1);
        }
    }
    first
}

/// The tokens from one that stands by itself, or from a square bracket to its end.
fn leaf_span(tokens: &[Token], at: u32) -> Span {
    let first = index_at(tokens, at);
    if is_sign(tokens, first, Sign::SquareOpen) {
        Span {
            first,
            last: closed_at(tokens, first),
        }
    } else {
        Span { first, last: first }
    }
}

/// The tokens of an operation, whose operands have these without the brackets round each of them.
fn operation_span(tokens: &[Token], left: Span, right: Span) -> Span {
    let closing = signs_behind(tokens, left.last.saturating_add(1), Sign::RoundClose);
    let operator = left.last.saturating_add(closing).saturating_add(1);
    let opening = right.first.saturating_sub(operator.saturating_add(1));
    Span {
        first: left.first.saturating_sub(closing),
        last: right.last.saturating_add(opening),
    }
}

/// The tokens of an expression, without round brackets round the whole of it.
pub fn expr_span(tokens: &[Token], expression: &Expr) -> Span {
    match expression.form.get() {
        ExprForm::Bin(_, left, right) => {
            let left = expr_span(tokens, left);
            let right = expr_span(tokens, right);
            operation_span(tokens, left, right)
        }
        _ => leaf_span(tokens, expression.at),
    }
}

/// The tokens of a pattern.
pub fn pattern_span(tokens: &[Token], pattern: &Pat) -> Span {
    leaf_span(tokens, pattern.at)
}

/// The tokens of the type that stands from an index on up to `in`.
pub fn type_span(tokens: &[Token], first: usize) -> Span {
    let rest = tokens.get(first..).unwrap_or(&[]);
    let count = rest
        .iter()
        .take_while(|token| !matches!(&token.what, What::Word(Key::In)))
        .count();
    Span {
        first,
        last: first.saturating_add(count).saturating_sub(1),
    }
}
