//! Operators, and what they make of their operands.

ghost use Rattle.std.specs.Prelude.{◌≡◌, ◌≢◌, ◌≤◌, ◌<◌, suc, None, IfOk};
ghost use Rattle.np_parse.specs.Input.{Reads};
ghost use Rattle.np_parse.specs.Read.Expressions as spec;

use super::cursor::Cursor;
use super::fail::ParseFail;
use np_lex::{Sign, What};
use np_syntax::{DEEPEST, Memory, Op};
use np_tree::{RawExpr, RawExprForm};
use std::alloc::Global;

fn multiplies(what: &What) -> Option<Op>
    ensures { result ≡ spec.multiplies what.now }
{
    match what {
        What::Sign(Sign::Star) => Some(Op::Mul),
        _ => None,
    }
}

fn adds(what: &What) -> Option<Op>
    ensures { result ≡ spec.adds what.now }
{
    match what {
        What::Sign(Sign::Plus) => Some(Op::Add),
        What::Sign(Sign::Minus) => Some(Op::Sub),
        _ => None,
    }
}

fn compares(what: &What) -> Option<Op>
    ensures { result ≡ spec.compares what.now }
{
    match what {
        What::Sign(Sign::Less) => Some(Op::Less),
        What::Sign(Sign::Same) => Some(Op::Equal),
        _ => None,
    }
}

/// The operators that bind alike.
#[derive(Clone, Copy)]
pub enum Rank {
    Product,
    Sum,
    Comparison,
}

fn operator(rank: Rank, what: &What) -> Option<Op>
    ensures { result ≡ spec.operator rank what.now }
{
    match rank {
        Rank::Product => multiplies(what),
        Rank::Sum => adds(what),
        Rank::Comparison => compares(what),
    }
}

/// Takes the operator behind an operand of this depth, if one of this rank stands there.
#[tactic(auto, unfolding(crate::specs::Read::Expressions::next_operator))]
pub fn next_operator(
    tokens: &mut Cursor<'_>,
    rank: Rank,
    below: u32,
    depth: u32,
) -> Result<Option<Op>, ParseFail>
    ensures reads { Reads (spec.next_operator rank (suc below) depth tokens.old) result tokens.new }
    ensures room { IfOk result (λ x. x ≢ None → depth ≤ below) }
{
    let Some(op) = operator(rank, tokens.peek()?) else {
        return Ok(None);
    };
    if depth > below {
        return Err(tokens.too_deep());
    }
    tokens.take()?;
    Ok(Some(op))
}

/// The operation on both, with its depth.
pub fn operation(
    alloc: Global,
    op: Op,
    left: (RawExpr, u32),
    right: (RawExpr, u32),
) -> Result<(RawExpr, u32), Memory>
    requires left { left.1 < DEEPEST }
    requires right { right.1 < DEEPEST }
    ensures { IfOk result (λ x. x ≡ spec.operation op left right) }
{
    let (left, deep) = left;
    let (right, depth) = right;
    let at = left.at;
    let both = RawExpr::new(alloc, at, RawExprForm::Bin(op, left, right))?;
    Ok((both, deep.max(depth) + 1))
}
