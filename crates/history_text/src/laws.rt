//! Laws of histories and their texts.

ghost use Rattle.std.specs.Prelude.{ℕ, List as Items};
ghost use Rattle.std.specs.List.{AllByRecursion};
ghost use Rattle.history_text.specs.Histories.{Fits};
ghost use Rattle.history_text.specs.Laws.{WrittenIsHistory, HasOneReading};

use np_syntax::Event;

/// The numbers of an event in memory are below 2 ^ 32.
fn event_fits(event: Event)
    ensures { Fits event }
{}

/// The numbers of events in memory are below 2 ^ 32.
pub fn law_fits(events: &[Event])
    ensures { AllByRecursion Fits events.now }
{
    for event in events {
        event_fits(*event);
    }
}

/// What is written of events whose numbers are below 2 ^ 32, in either format, is a history of them. So `read_history`
/// reads it back, as its clause `only` says.
pub fn law_written()
    ensures { WrittenIsHistory }
{}

/// Each text is a history of just one list of events, or is refused at just one line.
pub fn law_one_reading()
    ensures { (text : Items ℕ) → HasOneReading text }
{}
