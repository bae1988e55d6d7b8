ghost use Rattle.std.specs.Prelude.{◌≡◌};
ghost use Rattle.np_configuration.specs.Views.{is_alone, one_new, two_new};

use super::cfg::Cfg;
use np_conditions::{no_other, one_made, two_made, two_names};
use np_syntax::{Event, Made, Name};

/// Whether an event makes no name and takes no output.
pub fn is_alone(e: &Event) -> bool
    ensures { result ≡ is_alone e.now }
{
    match (e.made, e.other) {
        (Made::Nothing, None) => true,
        _ => false,
    }
}

impl Cfg {
    /// The one name that an event makes, if it is new and the event takes no output.
    pub(super) fn one_new(&self, e: &Event) -> Option<Name>
        ensures { result ≡ one_new self.now e.now }
    {
        let mark = one_made(e.made)?;
        no_other(e.other)?;
        self.fresh(mark)?;
        Some(mark)
    }

    /// The two names that an event makes, if they are new and differ, and the event takes no output.
    pub(super) fn two_new(&self, e: &Event) -> Option<(Name, Name)>
        ensures { result ≡ two_new self.now e.now }
    {
        let (first, second) = two_made(e.made)?;
        no_other(e.other)?;
        two_names(first, second)?;
        self.fresh(first)?;
        self.fresh(second)?;
        Some((first, second))
    }
}
