use np_syntax::Memory;
use thiserror::Error;

/// Why a source has no tokens. The offset, in bytes, is that of the first place where no token begins.
#[derive(Clone, Copy, Debug, Error)]
pub enum LexFail {
    #[error("out of memory")]
    Memory,
    /// No token, and neither a double quote nor a digit.
    #[error("no token begins at {0}")]
    BadChar(u32),
    /// A double quote whose string is not closed, is too long, or holds what no string holds.
    #[error("no string begins at {0}")]
    BadString(u32),
    /// A digit whose number is too large.
    #[error("the number at {0} is too large")]
    BigNumber(u32),
}

impl From<Memory> for LexFail {
    ghost use Rattle.std.specs.Prelude.{◌≡◌};
    ghost use Rattle.np_lex.specs.declared.fail.LexFail.TheVariants as fail;

    ghost from_gives = { λ memory gives. gives ≡ fail.Memory };

    fn from(_memory: Memory) -> LexFail {
        LexFail::Memory
    }
}
