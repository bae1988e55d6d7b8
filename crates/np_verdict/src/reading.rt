//! From the bytes of a source to its tokens, its tree and its program.

ghost use Rattle.std.specs.Prelude.{◌≡◌, ◌≢◌, ◌≤◌, ◌⊎◌, [], length, IfOk, IfErr};
ghost use Rattle.np_lex.specs.Tokens.{Lexes};
ghost use Rattle.np_tree.specs.Grammar.{IsProgram};
ghost use Rattle.np_tree.specs.Sizes.{nodes, binders};
ghost use Rattle.np_scope.specs.Sound.{IsSound};
ghost use Rattle.np_check.specs.Faults.{faults};
ghost use Rattle.np_verdict.specs.Faults.{Stage, Faulty, HasNoTokens, HasNoTree, HasNoProgram, HasProgram, IsNoProgram, IsWellTyped};

use super::refusal::{Refusal, of_grammar, of_scope, of_tokens};
use np_check::{CheckFail, Checked, check};
use np_lex::{Tokens, lex};
use np_parse::parse;
use np_scope::resolve;
use np_syntax::{DEEPEST, LONGEST_SOURCE, MOST_TOKENS, Program};
use np_tree::Tree;
use std::alloc::Global;

/// The tokens of a source.
pub fn tokens_of(alloc: Global, bytes: &[u8]) -> Result<Tokens, Refusal>
    requires { length bytes.now ≤ LONGEST_SOURCE }
    ensures found { IfOk result (λ tokens. Lexes 0 bytes.now tokens) }
    ensures few { IfOk result (λ tokens. length tokens ≤ MOST_TOKENS) }
    ensures refused { IfErr result (λ refusal. refusal ≢ Refusal.Memory → HasNoTokens bytes.now refusal) }
{
    match lex(alloc, bytes) {
        Ok(tokens) => Ok(tokens),
        Err(fail) => Err(of_tokens(fail)),
    }
}

/// The tree of tokens.
pub fn tree_of(alloc: Global, tokens: &Tokens) -> Result<Tree, Refusal>
    ensures found { IfOk result (λ tree. IsProgram DEEPEST tokens.now tree) }
    ensures nodes { IfOk result (λ tree. nodes tree.main ≤ length tokens.now) }
    ensures binders { IfOk result (λ tree. binders tree.main ≤ length tokens.now) }
    ensures refused { IfErr result (λ refusal. refusal ≢ Refusal.Memory → HasNoTree tokens.now refusal) }
{
    match parse(alloc, tokens) {
        Ok(tree) => Ok(tree),
        Err(fail) => Err(of_grammar(fail)),
    }
}

/// The program of tokens, with its names resolved.
fn program_of(alloc: Global, tokens: &Tokens) -> Result<Program, Refusal>
    requires { length tokens.now ≤ MOST_TOKENS }
    ensures found { IfOk result (λ program. HasProgram tokens.now program) }
    ensures sound { IfOk result IsSound }
    ensures refused { IfErr result (λ refusal. refusal ≢ Refusal.Memory → HasNoTree tokens.now refusal ⊎ HasNoProgram tokens.now refusal) }
{
    let tree = tree_of(alloc, tokens)?;
    let resolved = resolve(alloc, &tree);
    drop(tree);
    match resolved {
        Ok(program) => Ok(program),
        Err(fail) => Err(of_scope(fail)),
    }
}

/// The checked program of tokens, or the first refusal of the grammar, of scope or of types.
fn checked_program(alloc: Global, tokens: &Tokens) -> Result<Checked, Refusal>
    requires { length tokens.now ≤ MOST_TOKENS }
    ensures found { IfOk result (λ checked. HasProgram tokens.now checked) }
    ensures faultless { IfOk result (λ checked. faults checked ≡ []) }
    ensures refused { IfErr result (λ refusal. refusal ≢ Refusal.Memory → IsNoProgram tokens.now refusal) }
{
    let program = program_of(alloc, tokens)?;
    match check(alloc, program) {
        Ok(checked) => Ok(checked),
        Err(CheckFail::TypeFault(fault)) => Err(Refusal::TypeFault(fault)),
        Err(CheckFail::Memory) => Err(Refusal::Memory),
    }
}

/// The checked program of a source, or its refusal.
pub fn checked_source(alloc: Global, bytes: &[u8]) -> Result<Checked, Refusal>
    requires { length bytes.now ≤ LONGEST_SOURCE }
    ensures found { IfOk result (IsWellTyped bytes.now) }
    ensures refused { IfErr result (λ refusal. refusal ≢ Refusal.Memory → Faulty Stage.program bytes.now refusal) }
{
    let tokens = tokens_of(alloc, bytes)?;
    let read = checked_program(alloc, &tokens);
    drop(tokens);
    read
}
