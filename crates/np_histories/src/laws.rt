ghost use Rattle.np_histories.specs.Laws.{HaveOneAnswer};

/// A history is read, or replayed, or it is refused, and refused in one way alone.
pub fn law_one_answer()
    ensures { HaveOneAnswer }
{}
