ghost use Rattle.np_check.specs.Laws.{NeedSitesAlone, CountNodesAlone};
ghost use Rattle.np_check.specs.LowForms.{LowForms};

/// Of a resolved program, the faults are the same in each world that has its sites, and the type at a `new` is only
/// asked for the number of its nodes.
pub fn law_resolved()
    ensures sites { NeedSitesAlone }
    ensures nodes { CountNodesAlone }
{}

/// What the checks say of letters that are opened and of agents that are looked up, which no source has.
pub fn law_low_forms()
    ensures { LowForms }
{}
