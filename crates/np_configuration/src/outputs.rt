ghost use Rattle.std.specs.Prelude.{◌≡◌, IfOk};
ghost use Rattle.np_calculus.specs.Reductions.{output_in};

use np_calculus::Atom;
use np_eval::Frame;
use np_syntax::{Expr, ExprForm, Memory, Name, Proc, ProcForm, Tag, Value};
use std::alloc::Global;

/// The output that an event makes in an agent: its channel and its value stand in it as values.
pub fn output_in(
    alloc: Global,
    agent: Name,
    chan: Name,
    value: Value,
    tag: Tag,
) -> Result<Atom, Memory>
    ensures { IfOk result (λ made. made ≡ output_in agent chan value tag) }
{
    let chan = Expr::new(alloc, 0, ExprForm::Val(Value::Chan(chan)))?;
    let value = Expr::new(alloc, 0, ExprForm::Val(value))?;
    let proc = Proc::new(alloc, tag, 0, ProcForm::Out(chan, value))?;
    Ok(Atom {
        agent,
        proc,
        env: Frame::new(alloc),
    })
}
