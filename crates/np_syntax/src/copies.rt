//! Copies of expressions and patterns that stand side by side.

ghost use Rattle.std.specs.Prelude.{◌≡◌, IfOk};

use super::expression::Expr;
use super::memory::Memory;
use super::pattern::Pat;
use std::alloc::Global;

/// Copies of two expressions.
pub fn copy_pair(alloc: Global, first: &Expr, second: &Expr) -> Result<(Expr, Expr), Memory>
    ensures { IfOk result (λ copies. copies ≡ (first.now, second.now)) }
{
    let first = first.copy(alloc)?;
    let second = second.copy(alloc)?;
    Ok((first, second))
}

/// Copies of an expression and of the pattern that its value is to match.
pub fn copy_bound(alloc: Global, value: &Expr, names: &Pat) -> Result<(Expr, Pat), Memory>
    ensures { IfOk result (λ copies. copies ≡ (value.now, names.now)) }
{
    let value = value.copy(alloc)?;
    let names = names.copy(alloc)?;
    Ok((value, names))
}
