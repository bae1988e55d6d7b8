//! Laws of the runs that the sites of a program make by themselves.

ghost use Rattle.std.specs.Prelude.{[]};
ghost use Rattle.np_syntax.specs.declared.program.LowProgram.{LowProgram as OneProgram};
ghost use Rattle.run_save.specs.Ours.{IsOurs, OursGoesOn, PrefixIsOurs};

/// The empty run is ours.
pub fn law_nothing_is_ours()
    ensures { (q : OneProgram) → IsOurs q [] }
{}

/// A prefix of a run that is ours is ours.
pub fn law_prefix_is_ours()
    ensures { PrefixIsOurs }
{}

/// An event more is ours exactly where its names are the next of its site and what it takes, of what was put on its way there
/// and not yet taken, was put first.
pub fn law_ours_goes_on()
    ensures { OursGoesOn }
{}
