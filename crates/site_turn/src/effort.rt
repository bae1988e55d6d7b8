ghost use Rattle.std.specs.Prelude.{◌≡◌, ◌<◌};
ghost use Rattle.site_turn.specs.Lengths.{most_events};

/// How long a turn may be: that of a round which is asked for by itself is short, and those of a run are long, so that it takes few
/// rounds.
#[derive(Clone, Copy, PartialEq, Eq)]
pub enum Length {
    Short,
    Long,
}

/// How many events a short turn has at most.
const SHORT: u32 = 256;

/// How many events a long turn has at most.
const LONG: u32 = 16_384;

/// How many events a turn of this length has at most.
pub fn most_events(most: Length) -> u32
    ensures events { result ≡ most_events most }
    ensures some { 0 < result }
{
    match most {
        Length::Short => SHORT,
        Length::Long => LONG,
    }
}

/// How hard a site works in a turn: how long the turn may be, how often the site looks at the links to it before the turn ends
/// quiet, and whether it walks over atoms of which no index tells what they can do.
#[derive(Clone, Copy, PartialEq, Eq)]
pub struct Effort {
    pub most: Length,
    pub looks: u32,
    pub walks: bool,
}
