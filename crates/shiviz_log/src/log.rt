//! The text of a log.

ghost use Rattle.std.specs.Prelude.{◌≡◌, IfOk};
ghost use Rattle.shiviz_log.specs.Logs as spec;

use super::clocks::Clocks;
use super::entries::put_entry;
use np_syntax::{List, Memory, Text};
use run_pictures::Step;
use std::alloc::Global;

const FIRST_LINES: &[u8] = b"(?<host>\\S*) (?<clock>{.*})\\n(?<event>.*)\n\n";

/// The log of the steps of a run at these sites.
pub fn log_text(alloc: Global, sites: &[Text], steps: &[Step]) -> Result<Text, Memory>
    ensures { IfOk result (λ text. text ≡ spec.log sites.now steps.now) }
{
    let mut clocks = Clocks::new(alloc, sites.len())?;
    let mut text = List::from_slice(alloc, FIRST_LINES)?;
    for step in steps {
        let clock = clocks.clock_of(alloc, step)?;
        put_entry(alloc, &mut text, sites, step, clock.as_slice())?;
        clocks.take(alloc, step, clock)?;
    }
    Ok(text)
}
