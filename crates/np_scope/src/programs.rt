//! Trees resolved to programs.

ghost use Rattle.std.specs.Prelude.{◌≡◌, ◌≤◌, [], IfOk, IfErr, Ok, Err};
ghost use Rattle.np_tree.specs.Sizes.{nodes, binders};
ghost use Rattle.np_scope.specs.declared.fail.ScopeFail.TheVariants as fail;
ghost use Rattle.np_scope.specs.Counting.{ProcFits};
ghost use Rattle.np_scope.specs.Resolved.{first_numbers, resolved, main_of};
ghost use Rattle.np_scope.specs.Outcomes.{Gives};
ghost use Rattle.np_scope.specs.Sound.{IsNumbered, IsSound};
ghost use Rattle.np_scope.specs.Written.{IsWritten};

use super::fail::ScopeFail;
use super::numbers::{Numbers, Placed};
use super::resolver::Resolver;
use super::scope::Scope;
use super::sites::{enter_sites, home, texts};
use np_syntax::{MOST_BINDERS, MOST_NODES, Program};
use np_tree::Tree;
use std::alloc::Global;

/// Main's site and its process, with the numbers behind it.
#[tactic(auto, unfolding(crate::specs::Resolved::main_of))]
fn main_of<'a>(
    alloc: Global,
    scope: &mut Scope<'a>,
    tree: &'a Tree,
) -> Result<(u32, Placed), ScopeFail>
    requires empty { scope.old ≡ [] }
    requires fits { ProcFits first_numbers tree.now.main }
    ensures gives { Gives (main_of tree.now) result }
{
    let count = enter_sites(scope, tree.sites.as_slice())?;
    let at = home(scope, &tree.at)?;
    let first = Numbers { node: 1, binder: 0 };
    let resolver = Resolver {
        alloc,
        sites: count,
    };
    let main = resolver.proc(scope, first, &tree.main)?;
    Ok((at, main))
}

/// The same, with no name in scope before.
pub fn main_alone(alloc: Global, tree: &Tree) -> Result<(u32, Placed), ScopeFail>
    requires { ProcFits first_numbers tree.now.main }
    ensures gives { Gives (main_of tree.now) result }
{
    let mut scope = Scope::new(alloc);
    main_of(alloc, &mut scope, tree)
}

/// The program of a tree, or the first place in reading order at which a name is refused.
#[tactic(auto, using(crate::proofs::ProgramsSound::sound_where_resolved), unfolding(crate::specs::Resolved::resolved))]
pub fn resolve(alloc: Global, tree: &Tree) -> Result<Program, ScopeFail>
    requires nodes { nodes tree.now.main ≤ MOST_NODES }
    requires binders { binders tree.now.main ≤ MOST_BINDERS }
    requires written { IsWritten tree.now.main }
    ensures found { IfOk result (λ program. resolved tree.now ≡ Ok program) }
    ensures refused { IfErr result (λ e. ¬ (e ≡ fail.Memory) → resolved tree.now ≡ Err e) }
    ensures sound { IfOk result IsSound }
    ensures numbered { IfOk result IsNumbered }
{
    let sites = texts(alloc, tree.sites.as_slice())?;
    let (at, main) = main_alone(alloc, tree)?;
    Ok(Program {
        sites,
        at,
        main: main.proc,
        binders: main.next.binder,
    })
}
