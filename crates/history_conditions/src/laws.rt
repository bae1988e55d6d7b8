//! Why conditions tell what the table refuses.

ghost use Rattle.history_conditions.specs.Refused.{IsRefusedWhereUnmet};

/// The table of reductions refuses an event exactly where one of the conditions does not hold.
pub fn law_refused()
    ensures { IsRefusedWhereUnmet }
{}
