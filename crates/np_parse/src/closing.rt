//! The end of a tuple.

ghost use Rattle.std.specs.Prelude.{◌≡◌};
ghost use Rattle.np_parse.specs.Read.Tuples.{closes};

use np_lex::{Sign, What};

pub fn closes(what: &What) -> bool
    ensures { result ≡ closes what.now }
{
    matches!(what, What::Sign(Sign::SquareClose))
}
