//! A post, a migration, a creation, main's bracket and the daemon.

ghost use Rattle.std.specs.Prelude.{◌≡◌, ◌∷◌, [], ◌+◌, ◌≤◌, IfOk};
ghost use Rattle.infrastructure_texts.specs.Pieces.{Writes};
ghost use Rattle.infrastructure_texts.specs.Texts as spec;
ghost use Rattle.infrastructure_texts.specs.Daemon.{daemon_text};

use super::filler::Filler;
use super::writer::{Writer, Written};
use infrastructure_texts::{CREATION, DAEMON, MAIN, MIGRATION, POST};
use np_syntax::{Expr, List, Memory, Proc};
use std::alloc::Global;

/// The binders that a creation makes: for the site of both agents, and for a letter and a site in the new agent's server.
#[derive(Clone, Copy)]
pub struct Made {
    pub at: u32,
    pub letter: u32,
    pub place: u32,
}

/// A process to be put in.
pub fn one_part(alloc: Global, part: Proc) -> Result<List<Proc>, Memory>
    ensures { IfOk result (λ parts. parts ≡ part ∷ []) }
{
    let mut parts = List::new(alloc);
    parts.add(part)?;
    Ok(parts)
}

/// Two of them.
pub fn two_parts(alloc: Global, first: Proc, second: Proc) -> Result<List<Proc>, Memory>
    ensures { IfOk result (λ parts. parts ≡ first ∷ second ∷ []) }
{
    let mut parts = one_part(alloc, first)?;
    parts.add(second)?;
    Ok(parts)
}

impl Writer {
    /// A post, told to the daemon.
    pub fn post_text(self, agent: &Expr, chan: &Expr, value: &Expr) -> Written
        ensures { Writes result (spec.post_text self.sites self.node agent.now chan.now value.now) }
    {
        let filler = Filler {
            writer: self,
            binders: &[],
            next: 0,
            given: &[agent, chan, value],
        };
        filler.fill(POST, List::new(self.alloc))
    }

    /// A creation by an agent, and what the new agent and the other do.
    pub fn agent_text(
        self,
        parent: &Expr,
        agent: u32,
        made: Made,
        body: Proc,
        rest: Proc,
    ) -> Written
        ensures { Writes result (spec.agent_text self.sites self.node parent.now agent made.at made.letter made.place body rest) }
    {
        let filler = Filler {
            writer: self,
            binders: &[agent, made.at, made.letter, made.place],
            next: 0,
            given: &[parent],
        };
        filler.fill(CREATION, two_parts(self.alloc, body, rest)?)
    }

    /// Main's bracket, at this site.
    pub fn main_text(self, at: u32, letter: u32, place: u32, body: Proc) -> Written
        requires { self.node ≡ 0 }
        ensures { Writes result (spec.main_text self.sites at letter place body) }
    {
        let at = self.site(at)?;
        let filler = Filler {
            writer: self,
            binders: &[letter, place],
            next: 0,
            given: &[&at],
        };
        filler.fill(MAIN, one_part(self.alloc, body)?)
    }
}

/// A migration of an agent, and what it does at the site.
pub fn migrate_text(writer: Writer, agent: &Expr, to: &Expr, body: Proc) -> Written
    ensures { Writes result (spec.migrate_text writer.sites writer.node agent.now to.now body) }
{
    let filler = Filler {
        writer,
        binders: &[],
        next: 0,
        given: &[agent, to],
    };
    filler.fill(MIGRATION, one_part(writer.alloc, body)?)
}

/// The daemon of a program of so many sites, whose main agent stands at a site: its binders are numbered from the first on.
pub fn daemon(alloc: Global, sites: u32, at: u32, first_binder: u32) -> Written
    requires { first_binder + 20 ≤ u32.MAX }
    ensures { Writes result (daemon_text sites at first_binder) }
{
    let writer = Writer {
        alloc,
        sites,
        node: 0,
    };
    let at = writer.site(at)?;
    let filler = Filler {
        writer,
        binders: &[],
        next: first_binder,
        given: &[&at],
    };
    filler.fill(DAEMON, List::new(alloc))
}
