ghost use Rattle.run_views.specs.Laws.{LowPastIsRun, PastIsRun, PrintSays};
ghost use Rattle.run_views.specs.OneStep.{OneArrival, OneStepIsRun};
ghost use Rattle.run_views.specs.Saying.{LowSaidByPrints, SaidByPrints};

/// The past of a Print is a run from the same start, which says just the value of that Print.
pub fn law_past()
    ensures run { PastIsRun }
    ensures low_run { LowPastIsRun }
    ensures says { PrintSays }
{}

/// What a run says is said by its Prints, each of which says one value, in their order.
pub fn law_said_by_prints()
    ensures run { SaidByPrints }
    ensures low_run { LowSaidByPrints }
{}

/// The one-step list of a run of a source without location tests is a run of the calculus where migration is one step. It says
/// the same, and at its end everybody has arrived. An agent under way has just one arrival.
pub fn law_one_step()
    ensures run { OneStepIsRun }
    ensures arrival { OneArrival }
{}
