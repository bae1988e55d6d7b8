ghost use Rattle.run_twins.specs.Laws.{CachedTwinsAreReadOff, TwinsAreReadOff};

/// Each event of the source is read off from its twin, the event of the sites that has its number.
pub fn law_twins()
    ensures central { TwinsAreReadOff }
    ensures cached { CachedTwinsAreReadOff }
{}
