//! How programs are read.

ghost use Rattle.std.specs.Prelude.{◌≡◌, ◌≢◌, ◌≤◌, [], ◌∷◌, length, IfOk, IfErr};
ghost use Rattle.np_parse.specs.Input.{Reads};
ghost use Rattle.np_parse.specs.Read.Programs as spec;
ghost use Rattle.np_parse.specs.Refusal.{Refusal};
ghost use Rattle.np_tree.specs.Grammar.{IsProgram};
ghost use Rattle.np_tree.specs.Sizes.{nodes, binders};
ghost use Rattle.np_tree.specs.declared.tree.Tree.{Tree as AnyTree};

use super::cursor::Cursor;
use super::fail::ParseFail;
use super::process::proc;
use np_lex::{Key, Sign, Tokens, What};
use np_syntax::{DEEPEST, List};
use np_tree::{Ident, Tree};
use std::alloc::Global;

fn ends(what: &What) -> bool
    ensures { result ≡ spec.ends what.now }
{
    matches!(what, What::Sign(Sign::Semi))
}

/// The sites from the second on, and the sign behind them.
#[tactic(auto, using(crate::proofs::Sites::sites_refused, crate::proofs::Sites::sites_ended, crate::proofs::Sites::sites_unended, crate::proofs::Sites::sites_stuck, crate::proofs::Sites::sites_step, crate::proofs::Sites::name_takes))]
fn sites(alloc: Global, tokens: &mut Cursor<'_>, first: Ident) -> Result<List<Ident>, ParseFail>
    ensures { Reads (spec.sites (first ∷ []) tokens.old) result tokens.new }
{
    let mut found = List::new(alloc);
    found.add(first)?;
    'sites: loop {
        if ends(tokens.peek()?) {
            tokens.take()?;
            return Ok(found);
        }
        let site = tokens.name(alloc)?;
        found.add(site)?;
    }
}

/// From `sites` to the `=` before main's process: the sites, and the name after `main at`.
#[tactic(auto, unfolding(crate::specs::Read::Programs::program_head))]
fn program_head(alloc: Global, tokens: &mut Cursor<'_>) -> Result<(List<Ident>, Ident), ParseFail>
    ensures { Reads (spec.program_head tokens.old) result tokens.new }
{
    tokens.expect_word(Key::Sites)?;
    let first = tokens.name(alloc)?;
    let found = sites(alloc, tokens, first)?;
    tokens.expect_word(Key::Main)?;
    tokens.expect_word(Key::At)?;
    let at = tokens.name(alloc)?;
    tokens.expect_sign(Sign::Equals)?;
    Ok((found, at))
}

#[tactic(auto, unfolding(crate::specs::Read::Programs::program))]
fn program(alloc: Global, tokens: &mut Cursor<'_>) -> Result<Tree, ParseFail>
    ensures { Reads (spec.program DEEPEST tokens.old) result tokens.new }
{
    let (sites, at) = program_head(alloc, tokens)?;
    let (main, _) = proc(alloc, tokens, DEEPEST)?;
    tokens.expect_end()?;
    Ok(Tree { sites, at, main })
}

/// The tree of the tokens.
pub fn parse(alloc: Global, tokens: &Tokens) -> Result<Tree, ParseFail>
    // The grammar gives the tokens this tree,
    ensures found { IfOk result (λ tree. IsProgram DEEPEST tokens.now tree) }
    // and no other.
    ensures only { IfOk result (λ tree. (other : AnyTree) → IsProgram DEEPEST tokens.now other → other ≡ tree) }
    // Nothing is refused that has a tree, unless memory runs out.
    ensures complete { IfErr result (λ e. e ≢ ParseFail.Memory → (tree : AnyTree) → IsProgram DEEPEST tokens.now tree → ⊥) }
    // The shortest beginning of the tokens that begins no program shows which refusal it is, and where.
    ensures refused { IfErr result (λ e. e ≢ ParseFail.Memory → Refusal DEEPEST tokens.now e) }
    // No more processes and binders are numbered than there are tokens.
    ensures sizes { IfOk result (λ tree. (nodes tree.main ≤ length tokens.now) × (binders tree.main ≤ length tokens.now)) }
{
    let mut cursor = Cursor::new(tokens.as_slice());
    program(alloc, &mut cursor)
}
