//! Whether what is told is written in colours.

ghost use Rattle.std.specs.Prelude.{IfOk};
ghost use Rattle.np_look.specs.Dressed.{IsDressed};

use np_syntax::Memory;
use np_verdict::Refusal;
use refusal_diagnoses::Told;
use std::alloc::{Alloc, Global};
use std::env;
use std::rt::Env;
use text_colours::coloured;

/// Whether a variable has a word, and which is asked of it.
fn is_set<R: Env + Alloc>(rt: &R, name: &str, word: Option<&str>) -> bool {
    let Ok(value) = env::var(rt, name) else {
        return false;
    };
    match word {
        Some(word) => value.as_str() == word,
        None => value.as_str() != "",
    }
}

/// Whether colours are wanted on a terminal: NO_COLOR is not set or empty, and TERM is not `dumb`.
pub fn are_wanted<R: Env + Alloc>(rt: &R) -> bool {
    !is_set(rt, "NO_COLOR", None) && !is_set(rt, "TERM", Some("dumb"))
}

/// What is told, in colours or as it is.
pub fn dressed(
    alloc: Global,
    made: Result<Told, Refusal>,
    in_colours: bool,
) -> Result<Told, Refusal>
    ensures { IfOk result (λ dressed. IfOk made (IsDressed dressed)) }
{
    match made {
        Ok(Told { text, status }) if in_colours => match coloured(alloc, text.as_slice()) {
            Ok(text) => Ok(Told { text, status }),
            Err(Memory) => Err(Refusal::Memory),
        },
        made => made,
    }
}
