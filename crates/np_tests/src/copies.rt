//! Copies of programs of both levels, in which each form of a process stands.

use super::sources::checked;
use cache_encode::encode_cached;
use np_check::Checked;
use np_syntax::{LowProgram, Memory, Program, Tag};
use std::alloc::Global;
use std::test::Fail;

/// Each form of a process that a source has. With caches its low program has all others.
const EACH_FORM: &str = "sites home far ; main at home = new c : ^[Int Bool] in \
    (c![1 + 2 true] | c?[x _] -> print x | *c?y -> 0 | agent b = migrate to far -> let z = \"a\" in \
    if 1 < 2 then iflocal <main>c![1 true] then 0 else <b@far>c![2 false] else print z in <b@?>c![3 true])";

/// Main's site, the count of binders, and main's tag in a copy of a program.
fn copied(alloc: Global, program: &Program) -> Result<(u32, u32, Tag), Memory> {
    let copied = program.copy(alloc)?;
    let seen = (copied.at, copied.binders, copied.main.tag);
    drop(copied);
    Ok(seen)
}

/// The same of the program of a source.
fn copied_of(alloc: Global, source: &str) -> Result<(u32, u32, Tag), Memory> {
    let checked = checked(alloc, source)?;
    let seen = copied(alloc, checked.program());
    drop(checked);
    seen
}

#[test]
fn copies_programs(rt: HostRuntime) -> Result<(), Fail> {
    let (at, binders, tag) = copied_of(rt.alloc(), EACH_FORM)?;
    assert_eq!(rt; (at, binders, tag.node), (0, 5, 1));
    Ok(())
}

/// How many sites there are, and main's and the daemon's tag in a copy of a low program.
fn copied_low(alloc: Global, low: &LowProgram) -> Result<(usize, Tag, Tag), Memory> {
    let copied = low.copy(alloc)?;
    let seen = (copied.sites.len(), copied.main.tag, copied.daemon.tag);
    drop(copied);
    Ok(seen)
}

/// The same of the low program, with caches, of a program.
fn copied_cached(alloc: Global, program: &Checked) -> Result<(usize, Tag, Tag), Memory> {
    let low = encode_cached(alloc, program)?;
    let seen = copied_low(alloc, &low);
    drop(low);
    seen
}

/// The same of that of a source.
fn copied_cached_of(alloc: Global, source: &str) -> Result<(usize, Tag, Tag), Memory> {
    let checked = checked(alloc, source)?;
    let seen = copied_cached(alloc, &checked);
    drop(checked);
    seen
}

#[test]
fn copies_low_programs(rt: HostRuntime) -> Result<(), Fail> {
    let (sites, main, daemon) = copied_cached_of(rt.alloc(), EACH_FORM)?;
    assert_eq!(rt; (sites, main.node, daemon.node), (2, 0, 0));
    Ok(())
}
