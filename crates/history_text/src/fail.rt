use np_syntax::Memory;
use thiserror::Error;

/// Why a text is not read as a history.
#[derive(Clone, Copy, Debug, Error)]
pub enum HistFail {
    #[error("out of memory")]
    Memory,
    /// The number of the first line that no history has there, counted from 1. Where the first line or the last is
    /// missing, it is one more than the number of lines.
    #[error("no history goes on with line {0}")]
    HistSyntax(u32),
}

impl From<Memory> for HistFail {
    ghost use Rattle.std.specs.Prelude.{◌≡◌};
    ghost use Rattle.history_text.specs.declared.fail.HistFail.TheVariants as fail;

    ghost from_gives = { λ memory gives. gives ≡ fail.Memory };

    fn from(_memory: Memory) -> HistFail {
        HistFail::Memory
    }
}
