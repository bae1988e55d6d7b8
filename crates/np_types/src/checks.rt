ghost use Rattle.std.specs.Prelude.{◌≡◌, Err};
ghost use Rattle.np_syntax.specs.declared.types.Ty.{out-Ty};
ghost use Rattle.np_types.specs.Checks.{ensure};
ghost use Rattle.np_types.specs.Operands.{written_on, read_on};
ghost use Rattle.np_types.specs.Told.{Told};
ghost use Rattle.np_types.specs.declared.fault.LeastFail.TheVariants as fail;

use super::fault::{LeastFail, Rule, TypeFault};
use np_syntax::{Cap, Ty};

/// A fault, in the place of an answer.
pub fn fault<T>(at: u32, rule: Rule) -> Result<T, LeastFail>
    ensures { result ≡ Err (fail.Fault (record { at = at; rule = rule })) }
{
    Err(LeastFail::Fault(TypeFault { at, rule }))
}

/// Goes on where the test is met.
pub fn ensure(met: bool, at: u32, rule: Rule) -> Result<(), LeastFail>
    ensures { Told result (ensure met at rule) }
{
    if met { Ok(()) } else { fault(at, rule) }
}

/// What may be written on a channel of this type, or the fault at its place.
pub fn written_on(ty: Ty, at: u32) -> Result<Ty, LeastFail>
    ensures { Told result (written_on (out-Ty ty) at) }
{
    match ty.into_channel() {
        Some((Cap::Input, _)) => fault(at, Rule::NoOutput),
        Some((_, carried)) => Ok(carried),
        None => fault(at, Rule::NotChannel),
    }
}

/// What may be read on a channel of this type, or the fault at its place.
pub fn read_on(ty: Ty, at: u32) -> Result<Ty, LeastFail>
    ensures { Told result (read_on (out-Ty ty) at) }
{
    match ty.into_channel() {
        Some((Cap::Output, _)) => fault(at, Rule::NoInput),
        Some((_, carried)) => Ok(carried),
        None => fault(at, Rule::NotChannel),
    }
}
