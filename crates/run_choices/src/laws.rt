//! Laws of choices, and of the runs that they make.

ghost use Rattle.run_choices.specs.InTurn.{EachIsServed, EachOwnRun, EachServes};
ghost use Rattle.run_choices.specs.Runs.{EachCanGo, EachIsChoice, EachIsNamed, EachIsPicked, EachRun};

/// Each choice of a configuration that a run reaches is an event that is enabled, and numbers pick nothing but choices.
pub fn law_each_can_go()
    ensures goes { EachCanGo }
    ensures choice { EachIsChoice }
{}

/// Each event that is enabled is one of the choices, and each choice is picked by some numbers.
pub fn law_each_is_named()
    ensures named { EachIsNamed }
    ensures picked { EachIsPicked }
{}

/// For each run there are numbers by which just it is made, in whatever order the choices are listed.
pub fn law_each_run()
    ensures { EachRun }
{}

/// The sites can make each choice, so that the run is ours with it; and each event that is enabled, and with which the run is
/// ours, is what they make of some choice.
pub fn law_each_is_served()
    ensures served { EachIsServed }
    ensures serves { EachServes }
{}

/// For each run that is ours there are draws by which just it is made, in whatever order the choices are listed.
pub fn law_each_own_run()
    ensures { EachOwnRun }
{}
