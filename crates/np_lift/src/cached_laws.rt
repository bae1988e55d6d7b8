ghost use Rattle.np_lift.specs.CachedLaws.{LiftedByTable, LiftOfParts, LiftWithoutMessengers, StandingByTable, StandingOfParts};

/// What a mark stands for, and who is a messenger, as marks and messengers are added.
pub fn law_stands_for()
    ensures { StandingByTable }
{}

/// A list of events is lifted event by event, each by the table and by what stands for what before it. So the list of two parts is that
/// of the first, and then that of the second from what stands for what after the first.
pub fn law_lift_cached_of_lists()
    ensures table { LiftedByTable }
    ensures parts { LiftOfParts }
    ensures standing { StandingOfParts }
{}

/// A run in which no messenger is created for a post, and in which no location test of the infrastructure finds its agent, is lifted as
/// one of the infrastructure without caches.
pub fn law_lift_cached_without_messengers()
    ensures { LiftWithoutMessengers }
{}
