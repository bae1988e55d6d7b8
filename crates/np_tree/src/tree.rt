ghost use Rattle.std.specs.Prelude.{◌≡◌, IfOk};
ghost use Rattle.np_tree.specs.Nodes.{expr_at, proc_at};

use np_syntax::{Boxed, List, Memory, Op, Text, Ty, Value};
use std::alloc::Global;

/// A name with its offset in the source, in bytes.
#[derive(Drop)]
pub struct Ident {
    pub at: u32,
    pub text: Text,
}

/// A source as it is written: the names of its sites, the name after `main at`, and main's process.
#[derive(Drop)]
pub struct Tree {
    pub sites: List<Ident>,
    pub at: Ident,
    pub main: RawProc,
}

/// An expression with the offset, in bytes, of its first token that is no round bracket. Its form stands on the heap, so what holds
/// an expression is small.
#[cycle(expr)]
pub struct RawExpr {
    pub at: u32,
    pub form: Boxed<RawExprForm>,
}

impl RawExpr {
    /// An expression of that form, which stands on the heap from now on.
    pub fn new(alloc: Global, at: u32, form: RawExprForm) -> Result<RawExpr, Memory>
        ensures { IfOk result (λ expr. expr ≡ expr_at at form) }
    {
        let form = Boxed::of(alloc, form)?;
        Ok(RawExpr { at, form })
    }
}

// Each tree is given up by a function of its own: where one may be given up, there stands a call.

impl Drop for RawExpr {
    #[cycle(drop_expr)]
    fn drop(self) {
        let RawExpr { at: _, form } = self;
        drop(form);
    }
}

/// The forms of an expression. A value is a number, a truth value or a string.
#[cycle(expr)]
pub enum RawExprForm {
    Val(Value),
    Main,
    Var(Ident),
    Tuple(List<RawExpr>),
    Bin(Op, RawExpr, RawExpr),
}

impl Drop for RawExprForm {
    #[cycle(drop_expr)]
    fn drop(self) {
        match self {
            RawExprForm::Val(_)
            | RawExprForm::Main
            | RawExprForm::Var(_)
            | RawExprForm::Tuple(_)
            | RawExprForm::Bin(_, _, _) => {}
        }
    }
}

/// A pattern with the offset of its first token, in bytes.
#[cycle(pat)]
pub struct RawPat {
    pub at: u32,
    pub form: RawPatForm,
}

impl Drop for RawPat {
    #[cycle(drop_pat)]
    fn drop(self) {
        let RawPat { at: _, form } = self;
        drop(form);
    }
}

/// The forms of a pattern: `_`, a binder, and a tuple.
#[cycle(pat)]
pub enum RawPatForm {
    Any,
    Bind(Ident),
    Tuple(List<RawPat>),
}

impl Drop for RawPatForm {
    #[cycle(drop_pat)]
    fn drop(self) {
        match self {
            RawPatForm::Any | RawPatForm::Bind(_) | RawPatForm::Tuple(_) => {}
        }
    }
}

/// A process with the offset of its first token, in bytes. The compositions of one bracket all have the
/// offset of the bracket. Its form stands on the heap.
#[cycle(process)]
pub struct RawProc {
    pub at: u32,
    pub form: Boxed<RawProcForm>,
}

impl RawProc {
    /// A process of that form, which stands on the heap from now on.
    pub fn new(alloc: Global, at: u32, form: RawProcForm) -> Result<RawProc, Memory>
        ensures { IfOk result (λ proc. proc ≡ proc_at at form) }
    {
        let form = Boxed::of(alloc, form)?;
        Ok(RawProc { at, form })
    }
}

impl Drop for RawProc {
    #[cycle(drop_proc)]
    fn drop(self) {
        let RawProc { at: _, form } = self;
        drop(form);
    }
}

/// The forms of a process, with their parts in the order of the source.
#[cycle(process)]
pub enum RawProcForm {
    Stop,
    Par(RawProc, RawProc),
    New(Ident, Ty, RawProc),
    Out(Ident, RawExpr),
    Inp(Ident, RawPat, RawProc),
    Rep(Ident, RawPat, RawProc),
    Agent(Ident, RawProc, RawProc),
    Migrate(RawExpr, RawProc),
    IfLocal(RawExpr, Ident, RawExpr, RawProc, RawProc),
    Send(RawExpr, RawExpr, Ident, RawExpr),
    Post(RawExpr, Ident, RawExpr),
    If(RawExpr, RawProc, RawProc),
    Let(RawPat, RawExpr, RawProc),
    Print(RawExpr),
}

impl Drop for RawProcForm {
    #[cycle(drop_proc)]
    fn drop(self) {
        match self {
            RawProcForm::Stop
            | RawProcForm::Par(_, _)
            | RawProcForm::New(_, _, _)
            | RawProcForm::Out(_, _)
            | RawProcForm::Inp(_, _, _)
            | RawProcForm::Rep(_, _, _)
            | RawProcForm::Agent(_, _, _)
            | RawProcForm::Migrate(_, _)
            | RawProcForm::IfLocal(_, _, _, _, _)
            | RawProcForm::Send(_, _, _, _)
            | RawProcForm::Post(_, _, _)
            | RawProcForm::If(_, _, _)
            | RawProcForm::Let(_, _, _)
            | RawProcForm::Print(_) => {}
        }
    }
}
