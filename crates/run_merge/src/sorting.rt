ghost use Rattle.std.specs.Prelude.{◌≡◌, OnOk};
ghost use Rattle.run_merge.specs.InOrder.{in_order};
ghost use Rattle.run_merge.specs.Merged.{comes_before};

use super::rank::Ranked;
use np_syntax::Memory;

/// Puts all in order of their ranks.
pub(super) fn sort<T>(ranked: &mut Vec<Ranked<T>>) -> Result<(), Memory>
    ensures { OnOk result (ranked.new.items ≡ in_order comes_before ranked.old.items) }
{
    ranked.sort_by_key(|one| one.rank)?;
    Ok(())
}
