ghost use Rattle.run_merge.specs.Laws.{IsAscending, KeepsHistories, KeepsEvents, HasNoOthers, IsOnly, FollowsPrints, KeepsSaid, IsOnlySaid};

/// The merged history has the events of each history in their order, and is in order of stamps and then of sites. There is
/// no other such list.
pub fn law_merged()
    ensures order { IsAscending }
    ensures histories { KeepsHistories }
    ensures events { KeepsEvents }
    ensures others { HasNoOthers }
    ensures only { IsOnly }
{}

/// The printed values are in the order of the Print events of the merged history, and those of each site are the values
/// of its history in their order. There is no other such list.
pub fn law_said()
    ensures prints { FollowsPrints }
    ensures said { KeepsSaid }
    ensures only { IsOnlySaid }
{}
