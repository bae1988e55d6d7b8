//! What is written out for a node of the source.

ghost use Rattle.std.specs.Prelude.{◌≡◌};
ghost use Rattle.np_calculus.specs.Starts.{own};
ghost use Rattle.np_syntax.specs.declared.expression.ExprForm as expr;
ghost use Rattle.infrastructure_texts.specs.Pieces as spec;
ghost use Rattle.infrastructure_texts.specs.Pieces.{Writes};

use super::words::{WrittenExpr, expression};
use np_syntax::{ExprForm, Memory, Name, Proc, ProcForm, Role, Tag, Value};
use std::alloc::Global;

/// A process that was written out, unless memory was wanting.
pub type Written = Result<Proc, Memory>;

/// Writes processes that stand for the source node of this number, in a program of so many sites.
#[derive(Clone, Copy)]
pub struct Writer {
    pub alloc: Global,
    pub sites: u32,
    pub node: u32,
}

impl Writer {
    /// The program's own name of this number.
    pub fn own(self, n: u32) -> Name
        ensures { result ≡ own self.sites n }
    {
        Name {
            site: self.sites,
            n,
        }
    }

    pub fn value(self, value: Value) -> WrittenExpr
        ensures { Writes result (spec.expression (expr.Val value)) }
    {
        expression(self.alloc, ExprForm::Val(value))
    }

    pub fn agent(self, n: u32) -> WrittenExpr
        ensures { Writes result (spec.agent self.sites n) }
    {
        self.value(Value::Agent(self.own(n)))
    }

    pub fn channel(self, n: u32) -> WrittenExpr
        ensures { Writes result (spec.channel self.sites n) }
    {
        self.value(Value::Chan(self.own(n)))
    }

    pub fn site(self, number: u32) -> WrittenExpr
        ensures { Writes result (spec.site number) }
    {
        self.value(Value::Site(number))
    }

    pub fn process(self, role: Role, form: ProcForm) -> Written
        ensures { Writes result (spec.process self.node role form) }
    {
        let tag = Tag {
            node: self.node,
            role,
        };
        Proc::new(self.alloc, tag, 0, form)
    }

    /// A process that the infrastructure takes a step of its own for.
    pub fn infra(self, form: ProcForm) -> Written
        ensures { Writes result (spec.infra self.node form) }
    {
        self.process(Role::Infra, form)
    }
}
