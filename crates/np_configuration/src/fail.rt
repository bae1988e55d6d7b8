use np_syntax::Memory;
use thiserror::Error;

/// Why an event is not made.
#[derive(Clone, Copy, Debug, PartialEq, Eq, Error)]
pub enum ApplyFail {
    #[error("the event is not enabled")]
    NotEnabled,
    #[error("memory is wanting")]
    Memory,
}

impl From<Memory> for ApplyFail {
    ghost use Rattle.std.specs.Prelude.{◌≡◌};
    ghost use Rattle.np_configuration.specs.declared.fail.ApplyFail.TheVariants as fail;

    ghost from_gives = { λ memory result. result ≡ fail.Memory };

    fn from(_memory: Memory) -> ApplyFail {
        ApplyFail::Memory
    }
}
