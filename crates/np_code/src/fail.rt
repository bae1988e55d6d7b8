use np_syntax::Memory;
use thiserror::Error;

/// Why a low program has no code.
#[derive(Clone, Copy, Debug, Error)]
pub enum CodeFail {
    #[error("out of memory")]
    Memory,
    /// How many process nodes main and the daemon have together, at most the greatest `u64`.
    #[error("the low program has {0} process nodes")]
    TooManyNodes(u64),
}

impl From<Memory> for CodeFail {
    ghost use Rattle.std.specs.Prelude.{◌≡◌};
    ghost use Rattle.np_code.specs.declared.fail.CodeFail.TheVariants as fail;

    ghost from_gives = { λ memory gives. gives ≡ fail.Memory };

    fn from(_memory: Memory) -> CodeFail {
        CodeFail::Memory
    }
}
