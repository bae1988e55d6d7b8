use np_syntax::Memory;
use thiserror::Error;

/// Why the events are not followed to their end.
#[derive(Clone, Copy, Debug, Error)]
pub enum ReplayFail {
    #[error("out of memory")]
    Memory,
    /// So many of the first events are a run, and one more is none.
    #[error("the events are no run at {0}")]
    NotARun(u32),
}

impl From<Memory> for ReplayFail {
    ghost use Rattle.std.specs.Prelude.{◌≡◌};
    ghost use Rattle.np_serial.specs.declared.fail.ReplayFail.TheVariants as fail;

    ghost from_gives = { λ memory gives. gives ≡ fail.Memory };

    fn from(_memory: Memory) -> ReplayFail {
        ReplayFail::Memory
    }
}
