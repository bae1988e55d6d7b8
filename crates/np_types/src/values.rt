ghost use Rattle.std.specs.Prelude.{◌≡◌, IfOk};
ghost use Rattle.np_types.specs.Worlds.{bare, kind, kinds};

use np_syntax::{List, Memory, Ty, Value};
use std::alloc::Global;

/// The least type of a value, where no channel has a type.
#[tactic(auto, using(crate::proofs::ValueTypes::value_types))]
#[cycle(kind)]
pub fn kind(alloc: Global, value: &Value) -> Result<Option<Ty>, Memory>
    ensures { IfOk result (λ ty. ty ≡ kind bare value.now) }
{
    match value {
        Value::Int(_) => Ok(Some(Ty::Int)),
        Value::Truth(_) => Ok(Some(Ty::Bool)),
        Value::Str(_) => Ok(Some(Ty::Str)),
        Value::Site(_) => Ok(Some(Ty::Site)),
        Value::Agent(_) => Ok(Some(Ty::Agent)),
        Value::Chan(_) => Ok(None),
        Value::Tuple(parts) => match kinds(alloc, parts.as_slice())? {
            Some(types) => Ok(Some(Ty::Tuple(types))),
            None => Ok(None),
        },
        Value::Letter(_, _) => Ok(None),
        Value::Places(places) => {
            if places.len() == 0 {
                Ok(Some(Ty::Places))
            } else {
                Ok(None)
            }
        }
    }
}

#[tactic(auto, using(crate::proofs::ValueTypes::value_types))]
#[cycle(kind)]
fn kinds(alloc: Global, values: &[Value]) -> Result<Option<List<Ty>>, Memory>
    ensures { IfOk result (λ types. types ≡ kinds bare values.now) }
{
    let mut types = List::new(alloc);
    for value in values {
        let Some(ty) = kind(alloc, value)? else {
            return Ok(None);
        };
        types.add(ty)?;
    }
    Ok(Some(types))
}
