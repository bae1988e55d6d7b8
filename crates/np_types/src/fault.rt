use np_syntax::Memory;
use thiserror::Error;

/// What a program's check asks for.
#[derive(Clone, Copy, Debug, PartialEq, Eq)]
pub enum Rule {
    NotChannel,
    NoInput,
    NoOutput,
    Mismatch,
    NotAgent,
    NotSite,
    NotBool,
    NotInt,
    Shape,
    NotComparable,
    NotPrintable,
    Wide,
}

/// A check that fails: its rule, and the offset in the source, in bytes.
#[derive(Clone, Copy, Debug, PartialEq, Eq)]
pub struct TypeFault {
    pub at: u32,
    pub rule: Rule,
}

/// Why there is no least type.
#[derive(Debug, Drop, Error)]
pub enum LeastFail {
    #[error("a check fails")]
    Fault(TypeFault),
    #[error("memory is wanting")]
    Memory,
}

impl From<Memory> for LeastFail {
    ghost use Rattle.std.specs.Prelude.{◌≡◌};
    ghost use Rattle.np_types.specs.declared.fault.LeastFail.TheVariants as fail;

    ghost from_gives = { λ memory gives. gives ≡ fail.Memory };

    fn from(_memory: Memory) -> LeastFail {
        LeastFail::Memory
    }
}
