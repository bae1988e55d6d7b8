ghost use Rattle.std.specs.Prelude.{◌≡◌, IfOk};
ghost use Rattle.np_syntax.specs.Nodes.{expr_at};

use super::boxed::Boxed;
use super::list::List;
use super::memory::Memory;
use super::value::Value;
use std::alloc::Global;

#[derive(Clone, Copy, PartialEq, Eq)]
pub enum Op {
    Add,
    Sub,
    Mul,
    Less,
    Equal,
}

/// An expression with its offset in the source, in bytes. Its form stands on the heap, so what holds an expression is small.
#[cycle(expr)]
pub struct Expr {
    pub at: u32,
    pub form: Boxed<ExprForm>,
}

impl Drop for Expr {
    #[cycle(drop_expr)]
    fn drop(self) {
        let Expr { at: _, form: _ } = self;
    }
}

/// The forms of an expression. `Pack` (a letter of a channel and a value) and `With` (a map of places
/// with an agent's lock channel) stand at the low level alone. A variable is the number of its binder.
#[cycle(expr)]
pub enum ExprForm {
    Val(Value),
    Var(u32),
    Tuple(List<Expr>),
    Bin(Op, Expr, Expr),
    Pack(Expr, Expr),
    With(Expr, Expr, Expr),
}

impl Drop for ExprForm {
    #[cycle(drop_expr)]
    fn drop(self) {
        match self {
            ExprForm::Val(_)
            | ExprForm::Var(_)
            | ExprForm::Tuple(_)
            | ExprForm::Bin(_, _, _)
            | ExprForm::Pack(_, _)
            | ExprForm::With(_, _, _) => {}
        }
    }
}

impl Expr {
    /// An expression of that form, which stands on the heap from now on.
    pub fn new(alloc: Global, at: u32, form: ExprForm) -> Result<Expr, Memory>
        ensures { IfOk result (λ expr. expr ≡ expr_at at form) }
    {
        let form = Boxed::of(alloc, form)?;
        Ok(Expr { at, form })
    }

    #[cycle(expr_copy)]
    pub fn copy(&self, alloc: Global) -> Result<Expr, Memory>
        ensures { IfOk result (λ copied. copied ≡ self.now) }
    {
        let form = self.form.get().copy(alloc)?;
        Expr::new(alloc, self.at, form)
    }
}

impl ExprForm {
    #[cycle(expr_copy)]
    pub fn copy(&self, alloc: Global) -> Result<ExprForm, Memory>
        ensures { IfOk result (λ copied. copied ≡ self.now) }
    {
        match self {
            ExprForm::Val(value) => Ok(ExprForm::Val(value.copy(alloc)?)),
            ExprForm::Var(binder) => Ok(ExprForm::Var(*binder)),
            ExprForm::Tuple(parts) => Ok(ExprForm::Tuple(copy_exprs(alloc, parts.as_slice())?)),
            ExprForm::Bin(op, left, right) => {
                let left = left.copy(alloc)?;
                let right = right.copy(alloc)?;
                Ok(ExprForm::Bin(*op, left, right))
            }
            ExprForm::Pack(chan, value) => {
                let chan = chan.copy(alloc)?;
                let value = value.copy(alloc)?;
                Ok(ExprForm::Pack(chan, value))
            }
            ExprForm::With(places, agent, lock) => {
                let places = places.copy(alloc)?;
                let agent = agent.copy(alloc)?;
                let lock = lock.copy(alloc)?;
                Ok(ExprForm::With(places, agent, lock))
            }
        }
    }
}

#[cycle(expr_copy)]
fn copy_exprs(alloc: Global, exprs: &[Expr]) -> Result<List<Expr>, Memory>
    ensures { IfOk result (λ copied. copied ≡ exprs.now) }
{
    let mut copies = List::new(alloc);
    for expr in exprs {
        copies.add(expr.copy(alloc)?)?;
    }
    Ok(copies)
}
