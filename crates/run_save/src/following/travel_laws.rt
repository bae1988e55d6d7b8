ghost use Rattle.run_save.specs.following.ByKind.{DeedsAreOfKinds};
ghost use Rattle.run_save.specs.following.Coming.{ComingIsFirst};
ghost use Rattle.run_save.specs.following.Stamps.{SettledTakeLater};
ghost use Rattle.run_save.specs.following.TravelLaws.{LinksAreTold, SettledAreOurs};

/// Where each of n sites tells what it did, from the low start on, their merged history is a run that is ours: each site numbers
/// the names that it makes, and what an event takes on a link was put first there.
pub fn law_settled_are_ours()
    ensures { SettledAreOurs }
{}

/// On each link the run puts what the sites put, takes what came to them, and leaves what is left, one by one in order.
pub fn law_links_are_told()
    ensures { LinksAreTold }
{}

/// Where each of n sites tells what it did, from the low start on, an arrival is stamped above each departure of its agent before it, and a
/// landing above each sending of its mark.
pub fn law_settled_take_later()
    ensures { SettledTakeLater }
{}

/// Where such a run goes on by an event that takes an item and is ours with it, the item is the first that is left on a link to the
/// event's site, and the event is just the coming of this item.
pub fn law_coming_is_first()
    ensures { ComingIsFirst }
{}

/// By the kind of its event each of their deeds puts an item on its way, takes the item that its event names, or does neither.
pub fn law_deeds_are_of_kinds()
    ensures { DeedsAreOfKinds }
{}
