use np_syntax::{Expr, Pat, Tag, Ty};

/// A process node, with the numbers of nodes in the place of the processes that are its parts.
pub struct Node {
    pub tag: Tag,
    pub at: u32,
    pub form: NodeForm,
}

impl Drop for Node {
    fn drop(self) {
        let Node {
            tag: _,
            at: _,
            form: _,
        } = self;
    }
}

/// The forms of a process, with numbers for its parts. The first number of `New` and of `Agent` and the first of
/// `Lookup` are binders, all others are nodes. No low program that the translation gives has a `Post`; the form is
/// here so that each tree has a table.
pub enum NodeForm {
    Stop,
    Par(u32, u32),
    New(u32, Ty, u32),
    Out(Expr, Expr),
    Inp(Expr, Pat, u32),
    Rep(Expr, Pat, u32),
    Agent(u32, u32, u32),
    Migrate(Expr, u32),
    IfLocal(Expr, Expr, Expr, u32, u32),
    Send(Expr, Expr, Expr, Expr),
    Post(Expr, Expr, Expr),
    If(Expr, u32, u32),
    Let(Pat, Expr, u32),
    Print(Expr),
    Open(Expr),
    Lookup(Expr, Expr, u32, u32, u32),
}

impl Drop for NodeForm {
    fn drop(self) {
        match self {
            NodeForm::Stop
            | NodeForm::Par(_, _)
            | NodeForm::New(_, _, _)
            | NodeForm::Out(_, _)
            | NodeForm::Inp(_, _, _)
            | NodeForm::Rep(_, _, _)
            | NodeForm::Agent(_, _, _)
            | NodeForm::Migrate(_, _)
            | NodeForm::IfLocal(_, _, _, _, _)
            | NodeForm::Send(_, _, _, _)
            | NodeForm::Post(_, _, _)
            | NodeForm::If(_, _, _)
            | NodeForm::Let(_, _, _)
            | NodeForm::Print(_)
            | NodeForm::Open(_)
            | NodeForm::Lookup(_, _, _, _, _) => {}
        }
    }
}
