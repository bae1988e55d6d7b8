ghost use Rattle.np_sources.specs.Laws.{HaveOneAnswer};

use run_save::law_prefix_is_ours;

/// A source is taken so far as it is asked for, or refused, and refused in one way alone.
pub fn law_one_answer()
    ensures { HaveOneAnswer }
{
    law_prefix_is_ours();
}
