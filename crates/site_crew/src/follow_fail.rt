ghost use Rattle.std.specs.Prelude.{◌≡◌, ◌↔◌, IsTrue};
ghost use Rattle.site_crew.specs.declared.follow_fail.FollowFail.TheVariants as fail;

use np_syntax::Memory;
use thiserror::Error;

/// Why a crew does not do the events of a list again: a site has more events in it than the budget, and the number is that of the
/// first such site; or the sites do not make such a run by themselves, and the number is the index of the event at which it stops
/// being one; or memory is wanting.
#[derive(Clone, Copy, Debug, PartialEq, Eq, Error)]
pub enum FollowFail {
    #[error("site {0} has more events than the budget")]
    BudgetPast(u32),
    #[error("event {0} is not one that the sites make")]
    NotOurs(u32),
    #[error("memory is wanting")]
    Memory,
}

impl FollowFail {
    /// Whether memory was wanting.
    pub fn is_memory(self) -> bool
        ensures { IsTrue result ↔ (self ≡ fail.Memory) }
    {
        matches!(self, FollowFail::Memory)
    }
}

impl From<Memory> for FollowFail {
    ghost use Rattle.std.specs.Prelude.{◌≡◌};
    ghost use Rattle.site_crew.specs.declared.follow_fail.FollowFail.TheVariants as fail;

    ghost from_gives = { λ memory result. result ≡ fail.Memory };

    fn from(_: Memory) -> FollowFail {
        FollowFail::Memory
    }
}
