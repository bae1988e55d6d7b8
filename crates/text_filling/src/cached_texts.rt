//! The same with caches, but for a migration, which knows of none.

ghost use Rattle.std.specs.Prelude.{◌≡◌, ◌+◌, ◌≤◌};
ghost use Rattle.infrastructure_texts.specs.Pieces.{Writes};
ghost use Rattle.infrastructure_texts.specs.CacheTexts as spec;
ghost use Rattle.infrastructure_texts.specs.CacheDaemon as spec_daemon;

use super::filler::Filler;
use super::texts::{daemon, one_part, two_parts};
use super::writer::{Writer, Written};
use infrastructure_texts::{CACHED_CREATION, CACHED_DAEMON, CACHED_MAIN, CACHED_POST};
use np_syntax::{Expr, List, Proc};
use std::alloc::Global;

/// A post from an agent to another, of a value for a channel: its binders are numbered from the first on.
pub fn cached_post_text(
    writer: Writer,
    from: &Expr,
    to: &Expr,
    chan: &Expr,
    value: &Expr,
    first: u32,
) -> Written
    requires { first + 3 ≤ u32.MAX }
    ensures { Writes result (spec.post_text writer.sites writer.node from.now to.now chan.now value.now first) }
{
    let filler = Filler {
        writer,
        binders: &[],
        next: first,
        given: &[from, to, chan, value],
    };
    filler.fill(CACHED_POST, List::new(writer.alloc))
}

/// A creation by an agent, and what the new agent and the other do: their binders but for that of the site are numbered from the
/// first on.
pub fn cached_agent_text(
    writer: Writer,
    parent: &Expr,
    agent: u32,
    at: u32,
    first: u32,
    body: Proc,
    rest: Proc,
) -> Written
    requires { first + 6 ≤ u32.MAX }
    ensures { Writes result (spec.agent_text writer.sites writer.node parent.now agent at first (first + 1) (first + 2) body rest) }
{
    let filler = Filler {
        writer,
        binders: &[agent, at, first, first + 1],
        next: first + 2,
        given: &[parent],
    };
    filler.fill(CACHED_CREATION, two_parts(writer.alloc, body, rest)?)
}

/// Main's bracket, at this site: the binders of its server and its cache are numbered from the first on.
pub fn cached_main_text(writer: Writer, at: u32, first: u32, body: Proc) -> Written
    requires zero { writer.node ≡ 0 }
    requires numbers { first + 6 ≤ u32.MAX }
    ensures { Writes result (spec.main_text writer.sites at first (first + 1) (first + 2) body) }
{
    let at = writer.site(at)?;
    let filler = Filler {
        writer,
        binders: &[first, first + 1],
        next: first + 2,
        given: &[&at],
    };
    filler.fill(CACHED_MAIN, one_part(writer.alloc, body)?)
}

/// The daemon of a program of so many sites, whose main agent stands at a site: its binders are numbered from the first on.
pub fn cached_daemon(alloc: Global, sites: u32, at: u32, first_binder: u32) -> Written
    requires { first_binder + 27 ≤ u32.MAX }
    ensures { Writes result (spec_daemon.cached_daemon sites at first_binder) }
{
    let writer = Writer {
        alloc,
        sites,
        node: 0,
    };
    let central = daemon(alloc, sites, at, first_binder)?;
    let filler = Filler {
        writer,
        binders: &[],
        next: first_binder,
        given: &[],
    };
    filler.fill(CACHED_DAEMON, one_part(alloc, central)?)
}
