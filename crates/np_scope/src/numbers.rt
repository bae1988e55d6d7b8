//! The numbers of process nodes and binders.

ghost use Rattle.std.specs.Prelude.{◌≡◌, IfOk};
ghost use Rattle.np_scope.specs.Counting.{Fits};
ghost use Rattle.np_scope.specs.Resolved.{next_node, next_both, placed};

use np_syntax::{Memory, Proc, ProcForm, Role, Tag};
use std::alloc::Global;

/// The numbers of the next process node and of the next binder.
#[derive(Clone, Copy, PartialEq, Eq)]
pub struct Numbers {
    pub node: u32,
    pub binder: u32,
}

/// A process, and the numbers behind it.
#[derive(Drop)]
pub struct Placed {
    pub proc: Proc,
    pub next: Numbers,
}

impl Numbers {
    /// The numbers behind one more process node.
    pub fn next_node(self) -> Numbers
        requires { Fits self 1 0 }
        ensures { result ≡ next_node self }
    {
        Numbers {
            node: self.node + 1,
            binder: self.binder,
        }
    }

    /// The numbers behind one more process node and one more binder.
    pub fn next_both(self) -> Numbers
        requires { Fits self 1 1 }
        ensures { result ≡ next_both self }
    {
        Numbers {
            node: self.node + 1,
            binder: self.binder + 1,
        }
    }

    /// A process with this number.
    pub fn place(
        self,
        alloc: Global,
        at: u32,
        form: ProcForm,
        next: Numbers,
    ) -> Result<Placed, Memory>
        ensures { IfOk result (λ it. it ≡ placed self at form next) }
    {
        let tag = Tag {
            node: self.node,
            role: Role::Plain,
        };
        let proc = Proc::new(alloc, tag, at, form)?;
        Ok(Placed { proc, next })
    }
}
