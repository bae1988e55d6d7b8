ghost use Rattle.std.specs.Prelude.{◌≡◌};
ghost use Rattle.np_answers.specs.Answers.{events_in, events_of, told_of};

use np_on_sites::Record;
use np_sources::MadeRun;
use stamp_history::History;

/// The exit status, and the run if there was one: `kept` in the modes `run` and `load`, `high` in the mode `high`.
#[derive(Drop)]
pub struct Answer {
    pub status: u8,
    pub kept: Option<Record>,
    pub high: Option<MadeRun>,
}

/// What a program tells of an answer: the exit status, and how many events the run has, if there was one.
#[derive(Clone, Copy, PartialEq, Eq)]
pub struct Told {
    pub status: u8,
    pub events: Option<u64>,
}

impl Answer {
    /// What is told of the answer. The run is dropped.
    pub fn told(self) -> Told
        ensures { result ≡ told_of self }
    {
        let Answer { status, kept, high } = self;
        let events = events_in(&kept, &high);
        drop(kept);
        drop(high);
        Told { status, events }
    }
}

/// How many events the run has that is kept, if one is.
fn events_in(kept: &Option<Record>, high: &Option<MadeRun>) -> Option<u64>
    ensures { result ≡ events_in kept.now high.now }
{
    match (kept, high) {
        (Some(made), _) => Some(events_of(made.histories.as_slice())),
        (None, Some(made)) => Some(made.events.len() as u64),
        (None, None) => None,
    }
}

/// How many events the histories have.
fn events_of(histories: &[History]) -> u64
    ensures { result ≡ events_of histories.now }
{
    let mut events = 0u64;
    for history in histories {
        events = events.saturating_add(history.len() as u64);
    }
    events
}
