//! The texts of processes.

ghost use Rattle.std.specs.Prelude.{◌++◌, true, false, codes};
ghost use Rattle.np_show.specs.Shown.{type_text};
ghost use Rattle.text_writer.specs.Writes.{Writes};
ghost use Rattle.np_low_text.specs.LowText.{binder_text, pat_text, expr_text, message_text, proc_text};

use super::expressions::put_expr;
use super::names::put_binder;
use super::patterns::put_pat;
use np_show::{close_round, open_round, put_type};
use np_syntax::{Expr, List, Pat, Proc, ProcForm, Text, Ty};
use std::alloc::Global;
use text_writer::TextWriter;

/// `c!e`
fn put_message(alloc: Global, text: &mut TextWriter, sites: &List<Text>, c: &Expr, x: &Expr)
    ensures { Writes text.old text.new (message_text sites.now c.now x.now) }
{
    put_expr(alloc, text, sites, 3, c);
    text.put(b"!");
    put_expr(alloc, text, sites, 0, x)
}

/// `<b@s>c!e`
fn put_send(
    alloc: Global,
    text: &mut TextWriter,
    sites: &List<Text>,
    agent: &Expr,
    site: &Expr,
    c: &Expr,
    x: &Expr,
)
    ensures { Writes text.old text.new (codes "<" ++ expr_text sites.now 3 agent.now ++ codes "@"
        ++ expr_text sites.now 3 site.now ++ codes ">" ++ message_text sites.now c.now x.now) }
{
    text.put(b"<");
    put_expr(alloc, text, sites, 3, agent);
    text.put(b"@");
    put_expr(alloc, text, sites, 3, site);
    text.put(b">");
    put_message(alloc, text, sites, c, x)
}

/// `<b@?>c!e`
fn put_post(
    alloc: Global,
    text: &mut TextWriter,
    sites: &List<Text>,
    agent: &Expr,
    c: &Expr,
    x: &Expr,
)
    ensures { Writes text.old text.new (codes "<" ++ expr_text sites.now 3 agent.now ++ codes "@?>"
        ++ message_text sites.now c.now x.now) }
{
    text.put(b"<");
    put_expr(alloc, text, sites, 3, agent);
    text.put(b"@?>");
    put_message(alloc, text, sites, c, x)
}

fn put_print(alloc: Global, text: &mut TextWriter, sites: &List<Text>, x: &Expr)
    ensures { Writes text.old text.new (codes "print " ++ expr_text sites.now 0 x.now) }
{
    text.put(b"print ");
    put_expr(alloc, text, sites, 0, x)
}

fn put_open(alloc: Global, text: &mut TextWriter, sites: &List<Text>, x: &Expr)
    ensures { Writes text.old text.new (codes "open " ++ expr_text sites.now 0 x.now) }
{
    text.put(b"open ");
    put_expr(alloc, text, sites, 0, x)
}

/// `lookup a in m then x -> `
fn put_lookup(
    alloc: Global,
    text: &mut TextWriter,
    sites: &List<Text>,
    who: &Expr,
    places: &Expr,
    found: u32,
)
    ensures { Writes text.old text.new (codes "lookup " ++ expr_text sites.now 0 who.now ++ codes " in "
        ++ expr_text sites.now 0 places.now ++ codes " then " ++ binder_text found ++ codes " -> ") }
{
    text.put(b"lookup ");
    put_expr(alloc, text, sites, 0, who);
    text.put(b" in ");
    put_expr(alloc, text, sites, 0, places);
    text.put(b" then ");
    put_binder(text, found);
    text.put(b" -> ")
}

/// `c?p -> `
fn put_taking(alloc: Global, text: &mut TextWriter, sites: &List<Text>, c: &Expr, pat: &Pat)
    ensures { Writes text.old text.new (expr_text sites.now 3 c.now ++ codes "?" ++ pat_text pat.now ++ codes " -> ") }
{
    put_expr(alloc, text, sites, 3, c);
    text.put(b"?");
    put_pat(text, pat);
    text.put(b" -> ")
}

/// `agent b = `
fn put_agent(text: &mut TextWriter, name: u32)
    ensures { Writes text.old text.new (codes "agent " ++ binder_text name ++ codes " = ") }
{
    text.put(b"agent ");
    put_binder(text, name);
    text.put(b" = ")
}

/// `iflocal <b>c!e then `
fn put_iflocal(
    alloc: Global,
    text: &mut TextWriter,
    sites: &List<Text>,
    agent: &Expr,
    c: &Expr,
    x: &Expr,
)
    ensures { Writes text.old text.new (codes "iflocal <" ++ expr_text sites.now 3 agent.now ++ codes ">"
        ++ message_text sites.now c.now x.now ++ codes " then ") }
{
    text.put(b"iflocal <");
    put_expr(alloc, text, sites, 3, agent);
    text.put(b">");
    put_message(alloc, text, sites, c, x);
    text.put(b" then ")
}

/// `if e then `
fn put_if(alloc: Global, text: &mut TextWriter, sites: &List<Text>, test: &Expr)
    ensures { Writes text.old text.new (codes "if " ++ expr_text sites.now 0 test.now ++ codes " then ") }
{
    text.put(b"if ");
    put_expr(alloc, text, sites, 0, test);
    text.put(b" then ")
}

/// The text of a process. A composition has its bracket where `bracket` says so.
#[cycle(process)]
pub fn put_proc(alloc: Global, text: &mut TextWriter, sites: &List<Text>, bracket: bool, p: &Proc)
    ensures { Writes text.old text.new (proc_text sites.now bracket p.now) }
{
    use ProcForm as Form;
    match p.form.get() {
        Form::Stop => text.put(b"0"),
        Form::Par(p, q) => {
            open_round(text, bracket);
            put_left(alloc, text, sites, false, p, b" | ");
            put_proc(alloc, text, sites, true, q);
            close_round(text, bracket)
        }
        Form::New(c, ty, p) => put_new(alloc, text, sites, p, *c, ty),
        Form::Out(c, x) => put_message(alloc, text, sites, c, x),
        Form::Inp(c, pat, p) => put_input(alloc, text, sites, p, c, pat),
        Form::Rep(c, pat, p) => put_always(alloc, text, sites, p, c, pat),
        Form::Agent(b, p, q) => {
            put_agent(text, *b);
            put_left(alloc, text, sites, true, p, b" in ");
            put_proc(alloc, text, sites, true, q)
        }
        Form::Migrate(site, p) => put_migrate(alloc, text, sites, p, site),
        Form::IfLocal(b, c, x, p, q) => {
            put_iflocal(alloc, text, sites, b, c, x);
            put_left(alloc, text, sites, true, p, b" else ");
            put_proc(alloc, text, sites, true, q)
        }
        Form::Send(b, s, c, x) => put_send(alloc, text, sites, b, s, c, x),
        Form::Post(b, c, x) => put_post(alloc, text, sites, b, c, x),
        Form::If(test, p, q) => {
            put_if(alloc, text, sites, test);
            put_left(alloc, text, sites, true, p, b" else ");
            put_proc(alloc, text, sites, true, q)
        }
        Form::Let(pat, x, p) => put_let(alloc, text, sites, p, pat, x),
        Form::Print(x) => put_print(alloc, text, sites, x),
        Form::Open(x) => put_open(alloc, text, sites, x),
        Form::Lookup(who, places, found, p, q) => {
            put_lookup(alloc, text, sites, who, places, *found);
            put_left(alloc, text, sites, true, p, b" else ");
            put_proc(alloc, text, sites, true, q)
        }
    }
}

/// `new c : ^Int in P`
#[cycle(process)]
fn put_new(alloc: Global, text: &mut TextWriter, sites: &List<Text>, p: &Proc, c: u32, ty: &Ty)
    ensures { Writes text.old text.new (codes "new " ++ binder_text c ++ codes " : " ++ type_text ty.now ++ codes " in "
        ++ proc_text sites.now true p.now) }
{
    text.put(b"new ");
    put_binder(text, c);
    text.put(b" : ");
    put_type(text, ty);
    text.put(b" in ");
    put_proc(alloc, text, sites, true, p)
}

/// `c?p -> P`
#[cycle(process)]
fn put_input(
    alloc: Global,
    text: &mut TextWriter,
    sites: &List<Text>,
    p: &Proc,
    c: &Expr,
    pat: &Pat,
)
    ensures { Writes text.old text.new (expr_text sites.now 3 c.now ++ codes "?" ++ pat_text pat.now ++ codes " -> "
        ++ proc_text sites.now true p.now) }
{
    put_taking(alloc, text, sites, c, pat);
    put_proc(alloc, text, sites, true, p)
}

/// `*c?p -> P`
#[cycle(process)]
fn put_always(
    alloc: Global,
    text: &mut TextWriter,
    sites: &List<Text>,
    p: &Proc,
    c: &Expr,
    pat: &Pat,
)
    ensures { Writes text.old text.new (codes "*" ++ expr_text sites.now 3 c.now ++ codes "?" ++ pat_text pat.now ++ codes " -> "
        ++ proc_text sites.now true p.now) }
{
    text.put(b"*");
    put_taking(alloc, text, sites, c, pat);
    put_proc(alloc, text, sites, true, p)
}

/// `migrate to e -> P`
#[cycle(process)]
fn put_migrate(alloc: Global, text: &mut TextWriter, sites: &List<Text>, p: &Proc, site: &Expr)
    ensures { Writes text.old text.new (codes "migrate to " ++ expr_text sites.now 0 site.now ++ codes " -> "
        ++ proc_text sites.now true p.now) }
{
    text.put(b"migrate to ");
    put_expr(alloc, text, sites, 0, site);
    text.put(b" -> ");
    put_proc(alloc, text, sites, true, p)
}

/// `let p = e in P`
#[cycle(process)]
fn put_let(alloc: Global, text: &mut TextWriter, sites: &List<Text>, p: &Proc, pat: &Pat, x: &Expr)
    ensures { Writes text.old text.new (codes "let " ++ pat_text pat.now ++ codes " = " ++ expr_text sites.now 0 x.now
        ++ codes " in " ++ proc_text sites.now true p.now) }
{
    text.put(b"let ");
    put_pat(text, pat);
    text.put(b" = ");
    put_expr(alloc, text, sites, 0, x);
    text.put(b" in ");
    put_proc(alloc, text, sites, true, p)
}

/// A part, and what stands behind it.
#[cycle(process)]
fn put_left(
    alloc: Global,
    text: &mut TextWriter,
    sites: &List<Text>,
    bracket: bool,
    p: &Proc,
    behind: &[u8],
)
    ensures { Writes text.old text.new (proc_text sites.now bracket p.now ++ behind.now) }
{
    put_proc(alloc, text, sites, bracket, p);
    text.put(behind)
}
