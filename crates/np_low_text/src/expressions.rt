//! The texts of expressions.

ghost use Rattle.std.specs.Prelude.{map};
ghost use Rattle.np_syntax.specs.Printed.{spaced};
ghost use Rattle.np_show.specs.Shown.{squared};
ghost use Rattle.text_writer.specs.Writes.{Writes};
ghost use Rattle.np_low_text.specs.LowText as spec;

use super::names::{put_binder, put_value};
use np_show::{close_round, left, open_round, put_op, right, strength};
use np_syntax::{Expr, ExprForm, List, Text};
use std::alloc::Global;
use text_writer::TextWriter;

/// The text of an expression where this strength is needed.
#[cycle(expr)]
pub fn put_expr(alloc: Global, text: &mut TextWriter, sites: &List<Text>, level: u32, x: &Expr)
    ensures { Writes text.old text.new (spec.expr_text sites.now level x.now) }
{
    match x.form.get() {
        ExprForm::Val(value) => put_value(alloc, text, sites, value),
        ExprForm::Var(binder) => put_binder(text, *binder),
        ExprForm::Tuple(parts) => put_tuple(alloc, text, sites, parts.as_slice()),
        ExprForm::Bin(op, x, y) => {
            let round = strength(*op) < level;
            open_round(text, round);
            put_expr(alloc, text, sites, left(*op), x);
            put_op(text, *op);
            put_expr(alloc, text, sites, right(*op), y);
            close_round(text, round)
        }
        ExprForm::Pack(chan, value) => {
            text.put(b"pack(");
            put_expr(alloc, text, sites, 0, chan);
            text.put(b", ");
            put_expr(alloc, text, sites, 0, value);
            text.put(b")")
        }
        ExprForm::With(places, agent, lock) => {
            text.put(b"(");
            put_expr(alloc, text, sites, 0, places);
            text.put(b" with ");
            put_expr(alloc, text, sites, 0, agent);
            text.put(b" -> ");
            put_expr(alloc, text, sites, 0, lock);
            text.put(b")")
        }
    }
}

#[cycle(expr)]
fn put_tuple(alloc: Global, text: &mut TextWriter, sites: &List<Text>, parts: &[Expr])
    ensures { Writes text.old text.new (squared (map (spec.expr_text sites.now 0) parts.now)) }
{
    text.put(b"[");
    put_exprs(alloc, text, sites, parts);
    text.put(b"]")
}

/// The expressions with single spaces between them.
#[cycle(expr)]
fn put_exprs(alloc: Global, text: &mut TextWriter, sites: &List<Text>, parts: &[Expr])
    ensures { Writes text.old text.new (spaced (map (spec.expr_text sites.now 0) parts.now)) }
{
    let Some((first, others)) = parts.split_first() else {
        return;
    };
    put_expr(alloc, text, sites, 0, first);
    for other in others {
        text.put(b" ");
        put_expr(alloc, text, sites, 0, other);
    }
}
