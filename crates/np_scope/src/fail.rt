use np_syntax::Memory;
use thiserror::Error;

/// Why a tree has no program. The places are offsets in bytes.
#[derive(Debug, Drop, Error)]
pub enum ScopeFail {
    #[error("out of memory")]
    Memory,
    #[error("no site and no binder in scope has the name at {0}")]
    Unbound(u32),
    #[error("the site at {0} stands earlier in the list")]
    SiteTwice(u32),
    #[error("the site at {0} is one too many")]
    TooManySites(u32),
    #[error("no site has the name at {0}")]
    NotASite(u32),
}

impl From<Memory> for ScopeFail {
    ghost use Rattle.std.specs.Prelude.{◌≡◌};
    ghost use Rattle.np_scope.specs.declared.fail.ScopeFail.TheVariants as fail;

    ghost from_gives = { λ memory gives. gives ≡ fail.Memory };

    fn from(_memory: Memory) -> ScopeFail {
        ScopeFail::Memory
    }
}
