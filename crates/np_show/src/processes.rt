//! The texts of processes.

ghost use Rattle.std.specs.Prelude.{◌++◌, true, false, codes};
ghost use Rattle.text_writer.specs.Writes.{Writes};
ghost use Rattle.np_show.specs.Shown.{type_text, pat_text, expr_text, message_text, proc_text};

use super::expressions::{close_round, open_round, put_expr};
use super::patterns::put_pat;
use super::types::put_type;
use np_syntax::Ty;
use np_tree::{Ident, RawExpr, RawPat, RawProc, RawProcForm};
use std::alloc::Global;
use text_writer::TextWriter;

fn put_name(text: &mut TextWriter, name: &Ident)
    ensures { Writes text.old text.new (name.now.text) }
{
    text.put(name.text.as_slice())
}

/// `c!e`
fn put_message(alloc: Global, text: &mut TextWriter, c: &Ident, x: &RawExpr)
    ensures { Writes text.old text.new (message_text c.now x.now) }
{
    put_name(text, c);
    text.put(b"!");
    put_expr(alloc, text, 0, x)
}

/// `<b@s>c!e`
fn put_send(
    alloc: Global,
    text: &mut TextWriter,
    agent: &RawExpr,
    site: &RawExpr,
    c: &Ident,
    x: &RawExpr,
)
    ensures { Writes text.old text.new (codes "<" ++ expr_text 3 agent.now ++ codes "@" ++ expr_text 3 site.now ++ codes ">"
        ++ message_text c.now x.now) }
{
    text.put(b"<");
    put_expr(alloc, text, 3, agent);
    text.put(b"@");
    put_expr(alloc, text, 3, site);
    text.put(b">");
    put_message(alloc, text, c, x)
}

/// `<b@?>c!e`
fn put_post(alloc: Global, text: &mut TextWriter, agent: &RawExpr, c: &Ident, x: &RawExpr)
    ensures { Writes text.old text.new (codes "<" ++ expr_text 3 agent.now ++ codes "@?>" ++ message_text c.now x.now) }
{
    text.put(b"<");
    put_expr(alloc, text, 3, agent);
    text.put(b"@?>");
    put_message(alloc, text, c, x)
}

fn put_print(alloc: Global, text: &mut TextWriter, x: &RawExpr)
    ensures { Writes text.old text.new (codes "print " ++ expr_text 0 x.now) }
{
    text.put(b"print ");
    put_expr(alloc, text, 0, x)
}

/// `c?p -> `
fn put_taking(text: &mut TextWriter, c: &Ident, pat: &RawPat)
    ensures { Writes text.old text.new (c.now.text ++ codes "?" ++ pat_text pat.now ++ codes " -> ") }
{
    put_name(text, c);
    text.put(b"?");
    put_pat(text, pat);
    text.put(b" -> ")
}

/// `agent b = `
fn put_agent(text: &mut TextWriter, name: &Ident)
    ensures { Writes text.old text.new (codes "agent " ++ name.now.text ++ codes " = ") }
{
    text.put(b"agent ");
    put_name(text, name);
    text.put(b" = ")
}

/// `iflocal <b>c!e then `
fn put_iflocal(alloc: Global, text: &mut TextWriter, agent: &RawExpr, c: &Ident, x: &RawExpr)
    ensures { Writes text.old text.new (codes "iflocal <" ++ expr_text 3 agent.now ++ codes ">" ++ message_text c.now x.now
        ++ codes " then ") }
{
    text.put(b"iflocal <");
    put_expr(alloc, text, 3, agent);
    text.put(b">");
    put_message(alloc, text, c, x);
    text.put(b" then ")
}

/// `if e then `
fn put_if(alloc: Global, text: &mut TextWriter, test: &RawExpr)
    ensures { Writes text.old text.new (codes "if " ++ expr_text 0 test.now ++ codes " then ") }
{
    text.put(b"if ");
    put_expr(alloc, text, 0, test);
    text.put(b" then ")
}

/// The text of a process. A composition has its bracket where `bracket` says so.
#[cycle(process)]
pub fn put_proc(alloc: Global, text: &mut TextWriter, bracket: bool, p: &RawProc)
    ensures { Writes text.old text.new (proc_text bracket p.now) }
{
    use RawProcForm as Form;
    match p.form.get() {
        Form::Stop => text.put(b"0"),
        Form::Par(p, q) => {
            open_round(text, bracket);
            put_left(alloc, text, false, p, b" | ");
            put_proc(alloc, text, true, q);
            close_round(text, bracket)
        }
        Form::New(c, ty, p) => put_new(alloc, text, p, c, ty),
        Form::Out(c, x) => put_message(alloc, text, c, x),
        Form::Inp(c, pat, p) => put_input(alloc, text, p, c, pat),
        Form::Rep(c, pat, p) => put_always(alloc, text, p, c, pat),
        Form::Agent(b, p, q) => {
            put_agent(text, b);
            put_left(alloc, text, true, p, b" in ");
            put_proc(alloc, text, true, q)
        }
        Form::Migrate(site, p) => put_migrate(alloc, text, p, site),
        Form::IfLocal(b, c, x, p, q) => {
            put_iflocal(alloc, text, b, c, x);
            put_left(alloc, text, true, p, b" else ");
            put_proc(alloc, text, true, q)
        }
        Form::Send(b, s, c, x) => put_send(alloc, text, b, s, c, x),
        Form::Post(b, c, x) => put_post(alloc, text, b, c, x),
        Form::If(test, p, q) => {
            put_if(alloc, text, test);
            put_left(alloc, text, true, p, b" else ");
            put_proc(alloc, text, true, q)
        }
        Form::Let(pat, x, p) => put_let(alloc, text, p, pat, x),
        Form::Print(x) => put_print(alloc, text, x),
    }
}

/// `new c : ^Int in P`
#[cycle(process)]
fn put_new(alloc: Global, text: &mut TextWriter, p: &RawProc, c: &Ident, ty: &Ty)
    ensures { Writes text.old text.new (codes "new " ++ c.now.text ++ codes " : " ++ type_text ty.now ++ codes " in "
        ++ proc_text true p.now) }
{
    text.put(b"new ");
    put_name(text, c);
    text.put(b" : ");
    put_type(text, ty);
    text.put(b" in ");
    put_proc(alloc, text, true, p)
}

/// `c?p -> P`
#[cycle(process)]
fn put_input(alloc: Global, text: &mut TextWriter, p: &RawProc, c: &Ident, pat: &RawPat)
    ensures { Writes text.old text.new (c.now.text ++ codes "?" ++ pat_text pat.now ++ codes " -> " ++ proc_text true p.now) }
{
    put_taking(text, c, pat);
    put_proc(alloc, text, true, p)
}

/// `*c?p -> P`
#[cycle(process)]
fn put_always(alloc: Global, text: &mut TextWriter, p: &RawProc, c: &Ident, pat: &RawPat)
    ensures { Writes text.old text.new (codes "*" ++ c.now.text ++ codes "?" ++ pat_text pat.now ++ codes " -> "
        ++ proc_text true p.now) }
{
    text.put(b"*");
    put_taking(text, c, pat);
    put_proc(alloc, text, true, p)
}

/// `migrate to e -> P`
#[cycle(process)]
fn put_migrate(alloc: Global, text: &mut TextWriter, p: &RawProc, site: &RawExpr)
    ensures { Writes text.old text.new (codes "migrate to " ++ expr_text 0 site.now ++ codes " -> " ++ proc_text true p.now) }
{
    text.put(b"migrate to ");
    put_expr(alloc, text, 0, site);
    text.put(b" -> ");
    put_proc(alloc, text, true, p)
}

/// `let p = e in P`
#[cycle(process)]
fn put_let(alloc: Global, text: &mut TextWriter, p: &RawProc, pat: &RawPat, x: &RawExpr)
    ensures { Writes text.old text.new (codes "let " ++ pat_text pat.now ++ codes " = " ++ expr_text 0 x.now ++ codes " in "
        ++ proc_text true p.now) }
{
    text.put(b"let ");
    put_pat(text, pat);
    text.put(b" = ");
    put_expr(alloc, text, 0, x);
    text.put(b" in ");
    put_proc(alloc, text, true, p)
}

/// A part, and what stands behind it.
#[cycle(process)]
fn put_left(alloc: Global, text: &mut TextWriter, bracket: bool, p: &RawProc, behind: &[u8])
    ensures { Writes text.old text.new (proc_text bracket p.now ++ behind.now) }
{
    put_proc(alloc, text, bracket, p);
    text.put(behind)
}
