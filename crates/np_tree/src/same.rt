//! Trees but for their offsets.

ghost use Rattle.std.specs.Prelude.{◌≡◌, ◌↔◌, IsTrue, map};
ghost use Rattle.np_tree.specs.Erased.{erased_ident, erased_expr, erased_pat, erased_proc, erased_proc_form, erased};
ghost use Rattle.np_tree.specs.Grammar.{process};

use super::tree::{Ident, RawExpr, RawExprForm, RawPat, RawPatForm, RawProc, RawProcForm, Tree};
use np_syntax::Ty;

/// Whether the trees are equal but for their offsets.
pub fn same_tree(a: &Tree, b: &Tree) -> bool
    ensures { IsTrue result ↔ (erased a.now ≡ erased b.now) }
{
    same_idents(a.sites.as_slice(), b.sites.as_slice())
        && (same_ident(&a.at, &b.at) && same_proc(&a.main, &b.main))
}

fn same_ident(a: &Ident, b: &Ident) -> bool
    ensures { IsTrue result ↔ (erased_ident a.now ≡ erased_ident b.now) }
{
    a.text.as_slice() == b.text.as_slice()
}

fn same_idents(a: &[Ident], b: &[Ident]) -> bool
    ensures { IsTrue result ↔ (map erased_ident a.now ≡ map erased_ident b.now) }
{
    if a.len() != b.len() {
        return false;
    }
    for at in 0..a.len() {
        if !same_ident(&a[at], &b[at]) {
            return false;
        }
    }
    true
}

#[cycle(expr)]
fn same_expr(a: &RawExpr, b: &RawExpr) -> bool
    ensures { IsTrue result ↔ (erased_expr a.now ≡ erased_expr b.now) }
{
    match (a.form.get(), b.form.get()) {
        (RawExprForm::Val(v), RawExprForm::Val(w)) => v.same(w),
        (RawExprForm::Main, RawExprForm::Main) => true,
        (RawExprForm::Var(x), RawExprForm::Var(y)) => same_ident(x, y),
        (RawExprForm::Tuple(xs), RawExprForm::Tuple(ys)) => {
            same_exprs(xs.as_slice(), ys.as_slice())
        }
        (RawExprForm::Bin(o, x, y), RawExprForm::Bin(p, u, v)) => {
            *o == *p && (same_expr(x, u) && same_expr(y, v))
        }
        _ => false,
    }
}

#[cycle(expr)]
fn same_exprs(a: &[RawExpr], b: &[RawExpr]) -> bool
    ensures { IsTrue result ↔ (map erased_expr a.now ≡ map erased_expr b.now) }
{
    if a.len() != b.len() {
        return false;
    }
    for at in 0..a.len() {
        if !same_expr(&a[at], &b[at]) {
            return false;
        }
    }
    true
}

#[cycle(pat)]
fn same_pat(a: &RawPat, b: &RawPat) -> bool
    ensures { IsTrue result ↔ (erased_pat a.now ≡ erased_pat b.now) }
{
    match (&a.form, &b.form) {
        (RawPatForm::Any, RawPatForm::Any) => true,
        (RawPatForm::Bind(x), RawPatForm::Bind(y)) => same_ident(x, y),
        (RawPatForm::Tuple(ps), RawPatForm::Tuple(qs)) => same_pats(ps.as_slice(), qs.as_slice()),
        _ => false,
    }
}

#[cycle(pat)]
fn same_pats(a: &[RawPat], b: &[RawPat]) -> bool
    ensures { IsTrue result ↔ (map erased_pat a.now ≡ map erased_pat b.now) }
{
    if a.len() != b.len() {
        return false;
    }
    for at in 0..a.len() {
        if !same_pat(&a[at], &b[at]) {
            return false;
        }
    }
    true
}

fn same_channel(c: &Ident, t: &Ty, d: &Ident, u: &Ty) -> bool
    ensures { IsTrue result ↔ ((erased_ident c.now ≡ erased_ident d.now) × (t.now ≡ u.now)) }
{
    same_ident(c, d) && t.same(u)
}

fn same_message(c: &Ident, x: &RawExpr, d: &Ident, y: &RawExpr) -> bool
    ensures { IsTrue result ↔ ((erased_ident c.now ≡ erased_ident d.now) × (erased_expr x.now ≡ erased_expr y.now)) }
{
    same_ident(c, d) && same_expr(x, y)
}

fn same_errand(b: &RawExpr, c: &Ident, x: &RawExpr, a: &RawExpr, d: &Ident, y: &RawExpr) -> bool
    ensures { IsTrue result ↔ ((erased_expr b.now ≡ erased_expr a.now) × (erased_ident c.now ≡ erased_ident d.now)
        × (erased_expr x.now ≡ erased_expr y.now)) }
{
    same_expr(b, a) && same_message(c, x, d, y)
}

fn same_taking(c: &Ident, p: &RawPat, d: &Ident, q: &RawPat) -> bool
    ensures { IsTrue result ↔ ((erased_ident c.now ≡ erased_ident d.now) × (erased_pat p.now ≡ erased_pat q.now)) }
{
    same_ident(c, d) && same_pat(p, q)
}

fn same_binding(p: &RawPat, x: &RawExpr, q: &RawPat, y: &RawExpr) -> bool
    ensures { IsTrue result ↔ ((erased_pat p.now ≡ erased_pat q.now) × (erased_expr x.now ≡ erased_expr y.now)) }
{
    same_pat(p, q) && same_expr(x, y)
}

#[cycle(process)]
fn same_proc(a: &RawProc, b: &RawProc) -> bool
    ensures { IsTrue result ↔ (erased_proc a.now ≡ erased_proc b.now) }
{
    same_form(a.form.get(), b.form.get())
}

#[cycle(process)]
fn same_form(a: &RawProcForm, b: &RawProcForm) -> bool
    ensures { IsTrue result ↔ (process 0 (erased_proc_form a.now) ≡ process 0 (erased_proc_form b.now)) }
{
    use RawProcForm as Form;
    match (a, b) {
        (Form::Stop, Form::Stop) => true,
        (Form::Par(x, y), Form::Par(u, v)) => same_proc(x, u) && same_proc(y, v),
        (Form::New(c, t, x), Form::New(d, u, y)) => same_channel(c, t, d, u) && same_proc(x, y),
        (Form::Out(c, x), Form::Out(d, y)) => same_message(c, x, d, y),
        (Form::Inp(c, p, x), Form::Inp(d, q, y)) => same_taking(c, p, d, q) && same_proc(x, y),
        (Form::Rep(c, p, x), Form::Rep(d, q, y)) => same_taking(c, p, d, q) && same_proc(x, y),
        (Form::Agent(b, x, y), Form::Agent(c, u, v)) => {
            same_ident(b, c) && (same_proc(x, u) && same_proc(y, v))
        }
        (Form::Migrate(s, x), Form::Migrate(t, y)) => same_expr(s, t) && same_proc(x, y),
        (Form::IfLocal(b, c, e, x, y), Form::IfLocal(a, d, f, u, v)) => {
            same_errand(b, c, e, a, d, f) && (same_proc(x, u) && same_proc(y, v))
        }
        (Form::Send(b, s, c, e), Form::Send(a, t, d, f)) => {
            same_expr(s, t) && same_errand(b, c, e, a, d, f)
        }
        (Form::Post(b, c, e), Form::Post(a, d, f)) => same_errand(b, c, e, a, d, f),
        (Form::If(e, x, y), Form::If(f, u, v)) => {
            same_expr(e, f) && (same_proc(x, u) && same_proc(y, v))
        }
        (Form::Let(p, e, x), Form::Let(q, f, y)) => same_binding(p, e, q, f) && same_proc(x, y),
        (Form::Print(x), Form::Print(y)) => same_expr(x, y),
        _ => false,
    }
}
