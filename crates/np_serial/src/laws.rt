//! Laws of following events.

ghost use Rattle.std.specs.Prelude.{List as Items};
ghost use Rattle.np_syntax.specs.declared.event.Event.{Event as OneEvent};
ghost use Rattle.np_calculus.specs.Config.{Config};
ghost use Rattle.np_serial.specs.Replays.{HasOneEnd};

/// Events that are no run stop being one at just one index.
pub fn law_one_end()
    ensures { (start : Config) (events : Items OneEvent) → HasOneEnd start events }
{}
