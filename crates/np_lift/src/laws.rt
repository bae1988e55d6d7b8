ghost use Rattle.np_lift.specs.Laws.{DeedsOfParts, HandedIsPaired, LiftedByTable, LiftOfParts, PostsAreLifted, PrefixIsPaired};

/// A list of events is lifted event by event, each by the table: so each part of it is lifted by itself.
pub fn law_lift_of_lists()
    ensures table { LiftedByTable }
    ensures parts { LiftOfParts }
{}

/// The posts and openings of a run are those of its parts. Where all posts are handed over they are paired; where the posts of
/// a run are paired, so are those of each beginning of it. A run of the low level has as many posts as its lifted list.
pub fn law_posts()
    ensures parts { DeedsOfParts }
    ensures handed { HandedIsPaired }
    ensures prefix { PrefixIsPaired }
    ensures lifted { PostsAreLifted }
{}
