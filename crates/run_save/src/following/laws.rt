ghost use Rattle.run_save.specs.following.Following.{NoneFollow, OneMoreFollows, ResumesWhereLater, RoomIsLeft};
ghost use Rattle.run_save.specs.following.Names.{NextIsCounted};
ghost use Rattle.run_save.specs.following.Parts.{EnabledInPart, EventIsOfSite};

/// Where the merged history leads, an event that is no arrival and no landing is one of the sites', and enabled in what its site
/// holds, if its names are the next of the site.
pub fn law_enabled_in_part()
    ensures site { EventIsOfSite }
    ensures part { EnabledInPart }
{}

/// Where each site numbers its names, the number of a site's next name is that of the names that it made.
pub fn law_next_is_counted()
    ensures { NextIsCounted }
{}

/// Histories of which the merged events are those of a list, with the stamps 1, 2, 3 and so on, have those of a longer list where
/// one of them has one event more, with the next stamp. A site whose events in the list are within the budget has room for the
/// next one.
pub fn law_one_more_follows()
    ensures none { NoneFollow }
    ensures more { OneMoreFollows }
    ensures room { RoomIsLeft }
{}

/// Where such histories go on by events that are stamped above the number of the events of the list, the merged histories begin with
/// those, and go on with the others.
pub fn law_resumes()
    ensures { ResumesWhereLater }
{}
