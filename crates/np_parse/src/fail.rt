use np_syntax::Memory;
use thiserror::Error;

/// Why tokens have no tree. An offset is that of the token at which it is certain.
#[derive(Debug, Drop, Error)]
pub enum ParseFail {
    #[error("out of memory")]
    Memory,
    #[error("no program begins so")]
    Syntax(u32),
    #[error("no program of the depth begins so")]
    TooDeep(u32),
}

impl From<Memory> for ParseFail {
    ghost use Rattle.std.specs.Prelude.{◌≡◌};
    ghost use Rattle.np_parse.specs.declared.fail.ParseFail.TheVariants as fail;

    ghost from_gives = { λ memory gives. gives ≡ fail.Memory };

    fn from(_memory: Memory) -> ParseFail {
        ParseFail::Memory
    }
}
