//! How expressions are read.

ghost use Rattle.std.specs.Prelude.{◌≡◌, ◌≤◌, ◌<◌, ◌+◌, suc, IfOk};
ghost use Rattle.np_parse.specs.Input.{Reads, nothing};
ghost use Rattle.np_parse.specs.Read.Tuples.{sized, tuple_in, parts};
ghost use Rattle.np_parse.specs.Read.Expressions as spec;

use super::closing::closes;
use super::cursor::Cursor;
use super::fail::ParseFail;
use super::operator::{Rank, next_operator, operation};
use np_lex::{Key, Sign, What};
use np_syntax::{DEEPEST, List, MOST_PARTS, Value};
use np_tree::{RawExpr, RawExprForm};
use std::alloc::Global;

// ---- atoms without parts

fn begins_atom(what: &What) -> bool
    ensures { result ≡ spec.begins_atom what.now }
{
    match what {
        What::Number(_) | What::Str(_) | What::Ident(_) => true,
        What::Word(Key::True | Key::False | Key::Main) => true,
        What::Sign(Sign::RoundOpen | Sign::SquareOpen) => true,
        _ => false,
    }
}

/// Where no level is left for an expression.
#[tactic(auto, unfolding(crate::specs::Input::nothing))]
fn no_expr(tokens: &Cursor<'_>) -> Result<(RawExpr, u32), ParseFail>
    ensures reads { Reads (nothing spec.begins_atom tokens.now) result tokens.now }
    ensures within { IfOk result (λ x. x.1 ≡ 0) }
{
    if begins_atom(tokens.peek()?) {
        Err(tokens.too_deep())
    } else {
        Err(tokens.syntax())
    }
}

fn leaf(
    alloc: Global,
    tokens: &mut Cursor<'_>,
    form: RawExprForm,
) -> Result<(RawExpr, u32), ParseFail>
    ensures reads { Reads (spec.leaf form tokens.old) result tokens.new }
    ensures within { IfOk result (λ x. x.1 ≡ 1) }
{
    let at = tokens.take()?;
    let expression = RawExpr::new(alloc, at, form)?;
    Ok((expression, 1))
}

#[tactic(auto, unfolding(crate::specs::Read::Expressions::variable))]
fn variable(alloc: Global, tokens: &mut Cursor<'_>) -> Result<(RawExpr, u32), ParseFail>
    ensures reads { Reads (spec.variable tokens.old) result tokens.new }
    ensures within { IfOk result (λ x. x.1 ≡ 1) }
{
    let name = tokens.name(alloc)?;
    let at = name.at;
    let expression = RawExpr::new(alloc, at, RawExprForm::Var(name))?;
    Ok((expression, 1))
}

// ---- atoms

/// The parts of a tuple behind these, and the closing bracket: gives the depth of the deepest.
#[tactic(auto, using(crate::proofs::Steps::all_parts))]
#[cycle(expr)]
fn expr_parts(
    alloc: Global,
    tokens: &mut Cursor<'_>,
    below: u32,
    items: &mut List<RawExpr>,
) -> Result<u32, ParseFail>
    requires { below < DEEPEST }
    ensures reads { Reads (parts (spec.expr below) MOST_PARTS items.old 0 tokens.old) (sized items.new result) tokens.new }
    ensures within { IfOk result (λ x. x ≤ below) }
{
    let mut depth: u32 = 0;
    'parts: for _ in 0..MOST_PARTS {
        if closes(tokens.peek()?) {
            tokens.take()?;
            return Ok(depth);
        }
        let (item, deep) = expr(alloc, tokens, below)?;
        items.add(item)?;
        depth = depth.max(deep);
    }
    tokens.expect_sign(Sign::SquareClose)?;
    Ok(depth)
}

#[tactic(auto, unfolding(crate::specs::Read::Tuples::tuple_in))]
#[cycle(expr)]
fn tuple(alloc: Global, tokens: &mut Cursor<'_>, below: u32) -> Result<(RawExpr, u32), ParseFail>
    requires { below < DEEPEST }
    ensures reads { Reads (tuple_in (spec.expr below) spec.tuple_expression tokens.old) result tokens.new }
    ensures within { IfOk result (λ x. x.1 ≤ below + 1) }
{
    let at = tokens.take()?;
    let mut items = List::new(alloc);
    let depth = expr_parts(alloc, tokens, below, &mut items)?;
    let expression = RawExpr::new(alloc, at, RawExprForm::Tuple(items))?;
    Ok((expression, depth + 1))
}

/// An expression between round brackets, which count as a level.
#[tactic(auto, unfolding(crate::specs::Read::Expressions::round))]
#[cycle(expr)]
fn round(alloc: Global, tokens: &mut Cursor<'_>, below: u32) -> Result<(RawExpr, u32), ParseFail>
    requires { below < DEEPEST }
    ensures reads { Reads (spec.round (spec.expr below) below tokens.old) result tokens.new }
    ensures within { IfOk result (λ x. x.1 ≤ below + 1) }
{
    if below == 0 {
        return Err(tokens.too_deep());
    }
    tokens.take()?;
    let (inner, depth) = expr(alloc, tokens, below)?;
    tokens.expect_sign(Sign::RoundClose)?;
    Ok((inner, depth + 1))
}

/// An atom, with so many levels below it for its parts.
#[tactic(auto, unfolding(crate::specs::Read::Expressions::readers, crate::specs::Read::Expressions::atom_in))]
#[cycle(expr)]
fn atom_in(alloc: Global, tokens: &mut Cursor<'_>, below: u32) -> Result<(RawExpr, u32), ParseFail>
    requires { below < DEEPEST }
    ensures reads { Reads (spec.atom (suc below) tokens.old) result tokens.new }
    ensures within { IfOk result (λ x. x.1 ≤ below + 1) }
{
    match tokens.peek()? {
        What::Number(number) => leaf(alloc, tokens, RawExprForm::Val(Value::Int(*number))),
        What::Str(text) => {
            let text = text.copy(alloc)?;
            leaf(alloc, tokens, RawExprForm::Val(Value::Str(text)))
        }
        What::Ident(_) => variable(alloc, tokens),
        What::Word(Key::True) => leaf(alloc, tokens, RawExprForm::Val(Value::Truth(true))),
        What::Word(Key::False) => leaf(alloc, tokens, RawExprForm::Val(Value::Truth(false))),
        What::Word(Key::Main) => leaf(alloc, tokens, RawExprForm::Main),
        What::Sign(Sign::RoundOpen) => round(alloc, tokens, below),
        What::Sign(Sign::SquareOpen) => tuple(alloc, tokens, below),
        _ => Err(tokens.syntax()),
    }
}

// ---- products and sums

/// An operand of the operators of this rank, of so many levels at most.
#[tactic(auto, using(crate::proofs::Levels::operand_none, crate::proofs::Levels::deeper_operand), unfolding(crate::specs::Read::Expressions::readers))]
#[cycle(expr)]
fn operand(
    alloc: Global,
    tokens: &mut Cursor<'_>,
    levels: u32,
    rank: Rank,
) -> Result<(RawExpr, u32), ParseFail>
    requires { levels ≤ DEEPEST }
    ensures reads { Reads (spec.operand rank levels tokens.old) result tokens.new }
    ensures within { IfOk result (λ x. x.1 ≤ levels) }
{
    if levels == 0 {
        return no_expr(tokens);
    }
    match rank {
        Rank::Product => atom_in(alloc, tokens, levels - 1),
        Rank::Sum => prod_in(alloc, tokens, levels - 1),
        Rank::Comparison => sum_in(alloc, tokens, levels - 1),
    }
}

/// What stands behind the first operand of a product or of a sum.
#[tactic(auto, using(crate::proofs::Steps::chains))]
#[cycle(expr)]
fn chain(
    alloc: Global,
    tokens: &mut Cursor<'_>,
    below: u32,
    rank: Rank,
    first: (RawExpr, u32),
) -> Result<(RawExpr, u32), ParseFail>
    requires levels { below < DEEPEST }
    requires first { first.1 ≤ below + 1 }
    ensures reads { Reads (spec.chain (spec.operator rank) (spec.operand rank below) (suc below)
        (suc below) first tokens.old) result tokens.new }
    ensures within { IfOk result (λ x. x.1 ≤ below + 1) }
{
    let mut left = first;
    'turns: for _ in 0..below + 1 {
        let Some(op) = next_operator(tokens, rank, below, left.1)? else {
            return Ok(left);
        };
        let right = operand(alloc, tokens, below, rank)?;
        left = operation(alloc, op, left, right)?;
    }
    Err(tokens.too_deep())
}

#[tactic(auto, unfolding(crate::specs::Read::Expressions::readers))]
#[cycle(expr)]
fn prod_in(alloc: Global, tokens: &mut Cursor<'_>, below: u32) -> Result<(RawExpr, u32), ParseFail>
    requires { below < DEEPEST }
    ensures reads { Reads (spec.prod (suc below) tokens.old) result tokens.new }
    ensures within { IfOk result (λ x. x.1 ≤ below + 1) }
{
    let first = atom_in(alloc, tokens, below)?;
    chain(alloc, tokens, below, Rank::Product, first)
}

#[tactic(auto, unfolding(crate::specs::Read::Expressions::readers))]
#[cycle(expr)]
fn sum_in(alloc: Global, tokens: &mut Cursor<'_>, below: u32) -> Result<(RawExpr, u32), ParseFail>
    requires { below < DEEPEST }
    ensures reads { Reads (spec.sum (suc below) tokens.old) result tokens.new }
    ensures within { IfOk result (λ x. x.1 ≤ below + 1) }
{
    let first = prod_in(alloc, tokens, below)?;
    chain(alloc, tokens, below, Rank::Sum, first)
}

/// An atom of so many levels at most.
pub fn atom(
    alloc: Global,
    tokens: &mut Cursor<'_>,
    levels: u32,
) -> Result<(RawExpr, u32), ParseFail>
    requires { levels ≤ DEEPEST }
    ensures reads { Reads (spec.atom levels tokens.old) result tokens.new }
    ensures within { IfOk result (λ x. x.1 ≤ levels) }
{
    operand(alloc, tokens, levels, Rank::Product)
}

// ---- expressions

/// What stands behind the first side of a comparison, if this is one.
#[tactic(auto, using(crate::proofs::Steps::compared))]
#[cycle(expr)]
fn comparison(
    alloc: Global,
    tokens: &mut Cursor<'_>,
    below: u32,
    left: (RawExpr, u32),
) -> Result<(RawExpr, u32), ParseFail>
    requires levels { below < DEEPEST }
    requires left { left.1 ≤ below + 1 }
    ensures reads { Reads (spec.comparison (spec.sum below) (suc below) left tokens.old) result tokens.new }
    ensures within { IfOk result (λ x. x.1 ≤ below + 1) }
{
    let Some(op) = next_operator(tokens, Rank::Comparison, below, left.1)? else {
        return Ok(left);
    };
    let right = operand(alloc, tokens, below, Rank::Comparison)?;
    Ok(operation(alloc, op, left, right)?)
}

#[tactic(auto, unfolding(crate::specs::Read::Expressions::readers))]
#[cycle(expr)]
fn expr_in(alloc: Global, tokens: &mut Cursor<'_>, below: u32) -> Result<(RawExpr, u32), ParseFail>
    requires { below < DEEPEST }
    ensures reads { Reads (spec.expr (suc below) tokens.old) result tokens.new }
    ensures within { IfOk result (λ x. x.1 ≤ below + 1) }
{
    let left = sum_in(alloc, tokens, below)?;
    comparison(alloc, tokens, below, left)
}

/// An expression of so many levels at most.
#[tactic(auto, using(crate::proofs::Levels::deeper_expr), unfolding(crate::specs::Read::Expressions::readers))]
#[cycle(expr)]
pub fn expr(
    alloc: Global,
    tokens: &mut Cursor<'_>,
    levels: u32,
) -> Result<(RawExpr, u32), ParseFail>
    requires { levels ≤ DEEPEST }
    ensures reads { Reads (spec.expr levels tokens.old) result tokens.new }
    ensures within { IfOk result (λ x. x.1 ≤ levels) }
{
    if levels == 0 {
        no_expr(tokens)
    } else {
        expr_in(alloc, tokens, levels - 1)
    }
}
