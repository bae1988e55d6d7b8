ghost use Rattle.std.specs.Prelude.{◌≡◌, IfOk};
ghost use Rattle.np_syntax.specs.Nodes.{proc_at};

use super::expression::Expr;
use super::memory::Memory;
use super::pattern::Pat;
use super::process_forms::{
    bind, channel, iflocal, input, lookup, migrate, open_letter, output, post, print, replicated,
    send, test,
};
use super::shared::Shared;
use super::types::Ty;
use std::alloc::Global;

/// What a process node is there for: a node of the source, the sending of a post, or a step of the
/// infrastructure.
#[derive(Clone, Copy, PartialEq, Eq)]
pub enum Role {
    Plain,
    Post,
    Infra,
}

/// The number of the source's process node that a process stands for, 0 for none, and its role.
#[derive(Clone, Copy, PartialEq, Eq)]
pub struct Tag {
    pub node: u32,
    pub role: Role,
}

/// A process with its offset in the source, in bytes. Its form stands on the heap, so what holds a process is small, and
/// copies share it.
#[cycle(process)]
pub struct Proc {
    pub tag: Tag,
    pub at: u32,
    pub form: Shared<ProcForm>,
}

impl Drop for Proc {
    #[cycle(drop_proc)]
    fn drop(self) {
        let Proc {
            tag: _,
            at: _,
            form: _,
        } = self;
    }
}

/// The forms of a process, with their parts in the order of the source. `Post` stands at the high level
/// alone, `Open` and `Lookup` at the low level alone.
#[cycle(process)]
pub enum ProcForm {
    Stop,
    Par(Proc, Proc),
    New(u32, Ty, Proc),
    Out(Expr, Expr),
    Inp(Expr, Pat, Proc),
    Rep(Expr, Pat, Proc),
    Agent(u32, Proc, Proc),
    Migrate(Expr, Proc),
    IfLocal(Expr, Expr, Expr, Proc, Proc),
    Send(Expr, Expr, Expr, Expr),
    Post(Expr, Expr, Expr),
    If(Expr, Proc, Proc),
    Let(Pat, Expr, Proc),
    Print(Expr),
    Open(Expr),
    Lookup(Expr, Expr, u32, Proc, Proc),
}

impl Drop for ProcForm {
    #[cycle(drop_proc)]
    fn drop(self) {
        match self {
            ProcForm::Stop
            | ProcForm::Par(_, _)
            | ProcForm::New(_, _, _)
            | ProcForm::Out(_, _)
            | ProcForm::Inp(_, _, _)
            | ProcForm::Rep(_, _, _)
            | ProcForm::Agent(_, _, _)
            | ProcForm::Migrate(_, _)
            | ProcForm::IfLocal(_, _, _, _, _)
            | ProcForm::Send(_, _, _, _)
            | ProcForm::Post(_, _, _)
            | ProcForm::If(_, _, _)
            | ProcForm::Let(_, _, _)
            | ProcForm::Print(_)
            | ProcForm::Open(_)
            | ProcForm::Lookup(_, _, _, _, _) => {}
        }
    }
}

impl Proc {
    /// A process of that form, which stands on the heap from now on.
    pub fn new(alloc: Global, tag: Tag, at: u32, form: ProcForm) -> Result<Proc, Memory>
        ensures { IfOk result (λ proc. proc ≡ proc_at tag at form) }
    {
        let form = Shared::of(alloc, form)?;
        Ok(Proc { tag, at, form })
    }

    /// A process with the same form, which has one owner more. It takes no memory and walks over nothing.
    pub fn copy(&self, alloc: Global) -> Result<Proc, Memory>
        ensures { IfOk result (λ copied. copied ≡ self.now) }
    {
        let _ = alloc;
        let form = self.form.share()?;
        Ok(Proc {
            tag: self.tag,
            at: self.at,
            form,
        })
    }
}

impl ProcForm {
    /// A form of copies of what stands in it, which shares its processes.
    pub fn copy(&self, alloc: Global) -> Result<ProcForm, Memory>
        ensures { IfOk result (λ copied. copied ≡ self.now) }
    {
        match self {
            ProcForm::Stop => Ok(ProcForm::Stop),
            ProcForm::Par(left, right) => {
                let left = left.copy(alloc)?;
                let right = right.copy(alloc)?;
                Ok(ProcForm::Par(left, right))
            }
            ProcForm::New(chan, ty, body) => channel(alloc, *chan, ty, body.copy(alloc)?),
            ProcForm::Out(chan, value) => output(alloc, chan, value),
            ProcForm::Inp(chan, pat, body) => input(alloc, chan, pat, body.copy(alloc)?),
            ProcForm::Rep(chan, pat, body) => { replicated(alloc, chan, pat, body.copy(alloc)?) }
            ProcForm::Agent(agent, body, rest) => {
                let body = body.copy(alloc)?;
                let rest = rest.copy(alloc)?;
                Ok(ProcForm::Agent(*agent, body, rest))
            }
            ProcForm::Migrate(site, body) => migrate(alloc, site, body.copy(alloc)?),
            ProcForm::IfLocal(agent, chan, value, met, unmet) => {
                let met = met.copy(alloc)?;
                let unmet = unmet.copy(alloc)?;
                iflocal(alloc, agent, chan, value, met, unmet)
            }
            ProcForm::Send(agent, site, chan, value) => send(alloc, agent, site, chan, value),
            ProcForm::Post(agent, chan, value) => post(alloc, agent, chan, value),
            ProcForm::If(condition, met, unmet) => {
                let met = met.copy(alloc)?;
                let unmet = unmet.copy(alloc)?;
                test(alloc, condition, met, unmet)
            }
            ProcForm::Let(pat, value, body) => { bind(alloc, pat, value, body.copy(alloc)?) }
            ProcForm::Print(value) => print(alloc, value),
            ProcForm::Open(letter) => open_letter(alloc, letter),
            ProcForm::Lookup(agent, places, found, met, unmet) => {
                let met = met.copy(alloc)?;
                let unmet = unmet.copy(alloc)?;
                lookup(alloc, agent, places, *found, met, unmet)
            }
        }
    }
}
