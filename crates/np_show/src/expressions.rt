//! The texts of expressions.

ghost use Rattle.std.specs.Prelude.{◌≡◌, [], ◌++◌, map, codes, if◌then◌else◌};
ghost use Rattle.np_syntax.specs.Printed.{spaced, value_text};
ghost use Rattle.np_lex.specs.Tokens.{sign_text};
ghost use Rattle.text_writer.specs.Writes.{Writes};
ghost use Rattle.np_show.specs.Shown as spec;

use np_syntax::{List, Op, Value, print_value};
use np_tree::{RawExpr, RawExprForm};
use std::alloc::Global;
use text_writer::TextWriter;

/// How tightly an operation binds: a comparison 0, a sum 1, a product 2. An atom has 3.
pub fn strength(op: Op) -> u32
    ensures { result ≡ spec.strength op }
{
    match op {
        Op::Add | Op::Sub => 1,
        Op::Mul => 2,
        Op::Less | Op::Equal => 0,
    }
}

/// What the left operand needs at least.
pub fn left(op: Op) -> u32
    ensures { result ≡ spec.left op }
{
    match op {
        Op::Add | Op::Sub | Op::Less | Op::Equal => 1,
        Op::Mul => 2,
    }
}

/// What the right operand needs at least.
pub fn right(op: Op) -> u32
    ensures { result ≡ spec.right op }
{
    match op {
        Op::Add | Op::Sub => 2,
        Op::Mul => 3,
        Op::Less | Op::Equal => 1,
    }
}

pub fn open_round(text: &mut TextWriter, round: bool)
    ensures { Writes text.old text.new (if round then codes "(" else []) }
{
    if round {
        text.put(b"(");
    }
}

pub fn close_round(text: &mut TextWriter, round: bool)
    ensures { Writes text.old text.new (if round then codes ")" else []) }
{
    if round {
        text.put(b")");
    }
}

/// The sign of an operation between two spaces.
pub fn put_op(text: &mut TextWriter, op: Op)
    ensures { Writes text.old text.new (codes " " ++ sign_text (spec.op_sign op) ++ codes " ") }
{
    match op {
        Op::Add => text.put(b" + "),
        Op::Sub => text.put(b" - "),
        Op::Mul => text.put(b" * "),
        Op::Less => text.put(b" < "),
        Op::Equal => text.put(b" == "),
    }
}

fn put_value(alloc: Global, text: &mut TextWriter, value: &Value)
    ensures { Writes text.old text.new (value_text [] value.now) }
{
    let no_sites = List::new(alloc);
    match print_value(alloc, value, &no_sites) {
        Ok(printed) => text.put(printed.as_slice()),
        Err(_) => text.fail(),
    }
}

/// The text of an expression where this strength is needed.
#[cycle(expr)]
pub fn put_expr(alloc: Global, text: &mut TextWriter, level: u32, x: &RawExpr)
    ensures { Writes text.old text.new (spec.expr_text level x.now) }
{
    match x.form.get() {
        RawExprForm::Val(value) => put_value(alloc, text, value),
        RawExprForm::Main => text.put(b"main"),
        RawExprForm::Var(name) => text.put(name.text.as_slice()),
        RawExprForm::Tuple(parts) => put_tuple(alloc, text, parts.as_slice()),
        RawExprForm::Bin(op, x, y) => {
            let round = strength(*op) < level;
            open_round(text, round);
            put_expr(alloc, text, left(*op), x);
            put_op(text, *op);
            put_expr(alloc, text, right(*op), y);
            close_round(text, round)
        }
    }
}

#[cycle(expr)]
fn put_tuple(alloc: Global, text: &mut TextWriter, parts: &[RawExpr])
    ensures { Writes text.old text.new (spec.squared (map (spec.expr_text 0) parts.now)) }
{
    text.put(b"[");
    put_exprs(alloc, text, parts);
    text.put(b"]")
}

/// The expressions with single spaces between them.
#[cycle(expr)]
fn put_exprs(alloc: Global, text: &mut TextWriter, parts: &[RawExpr])
    ensures { Writes text.old text.new (spaced (map (spec.expr_text 0) parts.now)) }
{
    let Some((first, others)) = parts.split_first() else {
        return;
    };
    put_expr(alloc, text, 0, first);
    for other in others {
        text.put(b" ");
        put_expr(alloc, text, 0, other);
    }
}
