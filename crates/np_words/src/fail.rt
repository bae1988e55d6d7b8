use np_syntax::Memory;
use thiserror::Error;

/// Why there is no plan.
#[derive(Clone, Copy, Debug, Error)]
pub enum PlanFail {
    #[error("out of memory")]
    Memory,
    #[error("the words ask for nothing that the program does")]
    Usage,
}

impl From<Memory> for PlanFail {
    ghost use Rattle.std.specs.Prelude.{◌≡◌};
    ghost use Rattle.np_words.specs.declared.fail.PlanFail.TheVariants as fail;

    ghost from_gives = { λ memory gives. gives ≡ fail.Memory };

    fn from(_memory: Memory) -> PlanFail {
        PlanFail::Memory
    }
}
