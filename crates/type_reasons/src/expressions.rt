//! Faults inside of expressions.

use super::checking::{Checking, Scope, type_of};
use super::showing::with_type;
use super::wide::tuple_reasons;
use np_syntax::{Expr, ExprForm, List, Memory, Op, Ty};
use np_types::is_int;
use source_forms::{expr_span, token_text};
use source_places::{Reasons, filled};

/// An operation with its operands.
#[derive(Clone, Copy)]
struct Operation<'a> {
    op: Op,
    left: &'a Expr,
    right: &'a Expr,
}

/// The index of the operator of an operation.
fn operator_at(c: Checking<'_>, operation: Operation<'_>) -> usize {
    let left = expr_span(c.tokens, operation.left).last;
    let right = expr_span(c.tokens, operation.right).first;
    for index in left..right {
        let text = token_text(c.bytes, c.tokens, index);
        if matches!(text, b"+" | b"-" | b"*" | b"<" | b"==") && left < index {
            return index;
        }
    }
    left
}

/// How to go on where a value is compared that cannot be.
fn uncompared(ty: &Ty) -> &'static [u8] {
    match ty {
        Ty::Tuple(_) => b"take the tuple apart: `let [a b] = x in if a == 1 ..`",
        _ => b"channels are not compared: let a number go with each, and compare that",
    }
}

/// How to go on where an operand is no number.
fn uncounted(op: Op, ty: &Ty) -> &'static [u8] {
    match ty {
        Ty::Bool if op == Op::Less => b"truth values have no order: use `if`",
        Ty::Bool => b"truth values are not added: use `if`",
        Ty::Str if op == Op::Add => b"strings are not joined: put them into a tuple, `[x y]`",
        Ty::Str => b"strings have no order and no arithmetic",
        _ => b"write a number here, or leave the operation out",
    }
}

/// What is told of an operand that is no number.
fn number_wanted(
    c: Checking<'_>,
    operation: Operation<'_>,
    operand: &Expr,
    ty: &Ty,
) -> Result<Option<Reasons>, Memory> {
    let at = operator_at(c, operation);
    let beside = c.token_mark(at, b"takes two numbers")?;
    let written = token_text(c.bytes, c.tokens, at);
    let wanted = filled(c.alloc, b"`Int`, on both sides of `%`", written)?;
    let said = c.said(beside, wanted, uncounted(operation.op, ty))?;
    c.told_type(operand, ty, said)
}

/// What is told of a value on the left of `==` that is not compared.
fn comparable_wanted(
    c: Checking<'_>,
    operation: Operation<'_>,
    ty: &Ty,
) -> Result<Option<Reasons>, Memory> {
    let beside = c.token_mark(operator_at(c, operation), b"compares")?;
    let words = b"`Int`, `Bool`, `String`, `Site` or `Agent`, on both sides of `==`";
    let wanted = List::from_slice(c.alloc, words)?;
    let said = c.said(beside, wanted, uncompared(ty))?;
    c.told_type(operation.left, ty, said)
}

/// What is told of a value on the right of `==` that has another type than the one on the left.
fn same_wanted(
    c: Checking<'_>,
    operation: Operation<'_>,
    left: &Ty,
    right: &Ty,
) -> Result<Option<Reasons>, Memory> {
    let beside = Some(c.typed_mark(operation.left, left)?);
    let wanted = with_type(c.alloc, b"`%`, as on the left of `==`", left)?;
    let said = c.said(beside, wanted, b"compare two values of one type")?;
    c.told_type(operation.right, right, said)
}

/// What is told of an operation whose operands have types, and which has none.
fn operation_reasons(
    c: Checking<'_>,
    operation: Operation<'_>,
    left: &Ty,
    right: &Option<Ty>,
) -> Result<Option<Reasons>, Memory> {
    if operation.op == Op::Equal {
        return match right {
            Some(right) if operation.right.at == c.fault.at => {
                same_wanted(c, operation, left, right)
            }
            _ => comparable_wanted(c, operation, left),
        };
    }
    match right {
        Some(right) if is_int(left) => number_wanted(c, operation, operation.right, right),
        _ => number_wanted(c, operation, operation.left, left),
    }
}

/// Whether an expression has no type.
fn is_faulty(c: Checking<'_>, scope: &Scope, e: &Expr) -> Result<bool, Memory> {
    Ok(type_of(c.alloc, scope, e)?.is_none())
}

/// What is told of a fault inside of an expression that has no type.
#[cycle(inner)]
pub(super) fn inner_reasons(
    c: Checking<'_>,
    scope: &Scope,
    e: &Expr,
) -> Result<Option<Reasons>, Memory> {
    match e.form.get() {
        ExprForm::Tuple(parts) => {
            let parts = parts.as_slice();
            match parts_reasons(c, scope, parts)? {
                Some(reasons) => Ok(Some(reasons)),
                None => tuple_reasons(c, scope, e, parts),
            }
        }
        ExprForm::Bin(op, left, right) => {
            let Some(ty) = type_of(c.alloc, scope, left)? else {
                return inner_reasons(c, scope, left);
            };
            let other = type_of(c.alloc, scope, right)?;
            let operation = Operation {
                op: *op,
                left,
                right,
            };
            if other.is_none() && c.is_from(right.at) && left.at != c.fault.at {
                return inner_reasons(c, scope, right);
            }
            operation_reasons(c, operation, &ty, &other)
        }
        _ => Ok(None),
    }
}

/// What is told of the first component that has no type, if there is one.
#[cycle(inner)]
fn parts_reasons(
    c: Checking<'_>,
    scope: &Scope,
    parts: &[Expr],
) -> Result<Option<Reasons>, Memory> {
    for part in parts {
        if is_faulty(c, scope, part)? {
            return inner_reasons(c, scope, part);
        }
    }
    Ok(None)
}
