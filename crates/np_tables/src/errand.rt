ghost use Rattle.std.specs.Prelude.{◌≡◌, ◌+◌, ◌*◌, ◌^◌};
ghost use Rattle.np_tables.specs.Errands.{meeting_of};
ghost use Rattle.np_tables.specs.Fed.{both};

use np_syntax::Name;
use std::hash::{Hash, Hasher};

/// Where the outputs and the inputs of one agent on one channel meet.
#[derive(Clone, Copy, PartialEq, Eq)]
pub struct Meeting {
    pub agent: Name,
    pub chan: Name,
}

/// A name as one number.
fn number(name: Name) -> u64
    ensures { result ≡ name.site * 2 ^ 32 + name.n }
{
    u64::from(name.site) * (1 << 32) + u64::from(name.n)
}

/// Two names as one number.
fn both(first: Name, second: Name) -> u128
    ensures { result ≡ both first second }
{
    u128::from(number(first)) * (1 << 64) + u128::from(number(second))
}

impl Hash for Meeting {
    ghost use Rattle.std.specs.Hash as fed;
    ghost use Rattle.std.specs.Cmp.Rules.{comparing, hashing};
    ghost use Rattle.std.proofs.Common.{rules};

    ghost hash_input = { λ meeting. fed.u128 (both meeting.agent meeting.chan) };

    ghost respects_eq = { Prim.search (hashing, rules) };

    // Both names are given as one number: a hasher takes sixteen bytes at once.
    fn hash<H: Hasher>(&self, state: &mut H) {
        state.write_u128(both(self.agent, self.chan));
    }
}

/// What an atom waits for: it acts alone, it is an output or an input on a channel, or it waits on none.
#[derive(Clone, Copy, PartialEq, Eq)]
pub enum Errand {
    Acts,
    Gives(Meeting),
    Takes(Meeting),
    Stuck,
}

impl Hash for Errand {
    ghost use Rattle.std.specs.Cmp.Rules.{comparing, hashing};
    ghost use Rattle.std.proofs.Common.{rules};
    ghost use Rattle.np_tables.specs.Fed.{errand_fed};

    ghost hash_input = { errand_fed };

    ghost respects_eq = { Prim.search (hashing, rules) };

    // An output and an input on one channel give its names in two orders.
    fn hash<H: Hasher>(&self, state: &mut H) {
        match self {
            Errand::Acts => state.write_u8(0),
            Errand::Gives(meeting) => state.write_u128(both(meeting.agent, meeting.chan)),
            Errand::Takes(meeting) => state.write_u128(both(meeting.chan, meeting.agent)),
            Errand::Stuck => state.write_u8(1),
        }
    }
}

impl Errand {
    /// Where an output or an input waits.
    pub fn meeting(self) -> Option<Meeting>
        ensures { result ≡ meeting_of self }
    {
        match self {
            Errand::Gives(meeting) | Errand::Takes(meeting) => Some(meeting),
            Errand::Acts | Errand::Stuck => None,
        }
    }
}

/// What can go on: an atom that acts alone, or an input and an output that meet.
#[derive(Clone, Copy, PartialEq, Eq)]
pub enum Ready {
    Acts(Name),
    Meets(Name, Name),
}
