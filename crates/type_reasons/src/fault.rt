//! What is told of a fault of types.

use super::checking::{Checking, Scope};
use super::processes::reasons_in;
use np_lex::Token;
use np_syntax::{List, Memory, Program};
use np_types::{Env, TypeFault};
use source_forms::{Span, index_at, range_of};
use source_places::{Reasons, marked};
use std::alloc::Global;

/// How many processes may stand in one another, each composition of a bracket counted.
const MOST_LEVELS: u32 = 1000;

/// The mark on a place alone, where nothing more is known of it.
fn bare_reasons(alloc: Global, tokens: &[Token], fault: TypeFault) -> Result<Reasons, Memory> {
    let index = index_at(tokens, fault.at);
    let found = range_of(
        tokens,
        Span {
            first: index,
            last: index,
        },
    );
    let label = List::from_slice(alloc, b"breaks the rule")?;
    Ok(Reasons {
        refused: Some(marked(found, fault.at as usize, label)),
        beside: None,
        wanted: List::new(alloc),
        why: List::new(alloc),
        next: List::new(alloc),
    })
}

/// What is told of the fault of types of a program.
pub fn reasons_of_fault(
    alloc: Global,
    bytes: &[u8],
    tokens: &[Token],
    program: &Program,
    fault: TypeFault,
) -> Result<Reasons, Memory> {
    let checking = Checking {
        alloc,
        bytes,
        tokens,
        fault,
    };
    let mut scope = Scope {
        env: Env::new(alloc),
        bound: List::new(alloc),
    };
    match reasons_in(checking, &mut scope, &program.main, MOST_LEVELS)? {
        Some(reasons) => Ok(reasons),
        None => bare_reasons(alloc, tokens, fault),
    }
}
