use np_syntax::Memory;
use np_types::{LeastFail, TypeFault};
use thiserror::Error;

/// Why a program is not accepted.
#[derive(Debug, Drop, Error)]
pub enum CheckFail {
    #[error("out of memory")]
    Memory,
    #[error("a check fails")]
    TypeFault(TypeFault),
}

impl From<Memory> for CheckFail {
    ghost use Rattle.std.specs.Prelude.{◌≡◌};
    ghost use Rattle.np_check.specs.declared.fail.CheckFail.TheVariants as fail;

    ghost from_gives = { λ memory gives. gives ≡ fail.Memory };

    fn from(_memory: Memory) -> CheckFail {
        CheckFail::Memory
    }
}

impl From<LeastFail> for CheckFail {
    ghost use Rattle.std.specs.Prelude.{◌≡◌};
    ghost use Rattle.np_check.specs.Answers.{handed};

    ghost from_gives = { λ fail gives. gives ≡ handed fail };

    fn from(fail: LeastFail) -> CheckFail {
        match fail {
            LeastFail::Fault(fault) => CheckFail::TypeFault(fault),
            LeastFail::Memory => CheckFail::Memory,
        }
    }
}
