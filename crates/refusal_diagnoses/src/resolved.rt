//! What is told of a source whose names stand for something.

ghost use Rattle.std.specs.Prelude.{◌≤◌, length};
ghost use Rattle.np_syntax.specs.declared.limits.TheConstants.{MOST_TOKENS};

use np_lex::Tokens;
use np_scope::{ScopeFail, resolve};
use np_syntax::{Memory, Program};
use np_verdict::{Refusal, tree_of};
use source_places::{Reasons, without_marks};
use std::alloc::Global;
use type_reasons::{reasons_of_fault, reasons_of_test};

/// The program of tokens, with its names resolved, or why there is none.
fn program_of(alloc: Global, tokens: &Tokens) -> Result<Program, Refusal>
    requires { length tokens.now ≤ MOST_TOKENS }
{
    let tree = tree_of(alloc, tokens)?;
    let resolved = resolve(alloc, &tree);
    drop(tree);
    match resolved {
        Ok(program) => Ok(program),
        Err(ScopeFail::Memory) => Err(Refusal::Memory),
        Err(_) => Err(Refusal::Usage),
    }
}

/// What is told of a fault of types, or of a location test.
pub(super) fn fault_reasons(
    alloc: Global,
    bytes: &[u8],
    tokens: &Tokens,
    refusal: Refusal,
) -> Result<Reasons, Memory>
    requires { length tokens.now ≤ MOST_TOKENS }
{
    match refusal {
        Refusal::LocationTest(at) => reasons_of_test(alloc, tokens.as_slice(), at),
        Refusal::TypeFault(fault) => match program_of(alloc, tokens) {
            Ok(program) => {
                let reasons = reasons_of_fault(alloc, bytes, tokens.as_slice(), &program, fault);
                drop(program);
                reasons
            }
            Err(Refusal::Memory) => Err(Memory),
            Err(_) => without_marks(alloc, b"", b""),
        },
        _ => without_marks(alloc, b"", b""),
    }
}
