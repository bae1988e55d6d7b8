//! The text of a run at the high level, where it is asked for.

ghost use Rattle.std.specs.Prelude.{◌≡◌, ◌≢◌, None, IsSome, IfOk, IfErr, length, ◌≤◌};
ghost use Rattle.np_calculus.specs.Reductions.{run};
ghost use Rattle.np_calculus.specs.Starts.{start_high};
ghost use Rattle.run_views.specs.OneStep.{one_step};
ghost use Rattle.run_views.specs.Tests.{tests};
ghost use Rattle.run_views.specs.Stepped.{IsStepped};
ghost use Rattle.history_text.specs.Spelling.{high_text};
ghost use Rattle.np_verdict.specs.Faults.{IsWellTyped};
ghost use Rattle.np_sources.specs.Kept.{IsShownSo, high_part};
ghost use Rattle.np_sources.specs.Reaches.{Reach, FaultyTo, barred};

use history_text::write_high;
use np_check::Checked;
use np_syntax::{Event, LONGEST_SOURCE, List, Memory, Text};
use np_verdict::{Refusal, checked_source};
use np_words::HighText;
use run_views::{first_test, one_step};
use std::alloc::Global;

/// The checked program of a source of which such a high text is to be shown, or the first refusal.
pub(crate) fn checked_for(alloc: Global, high: HighText, bytes: &[u8]) -> Result<Checked, Refusal>
    requires { length bytes.now ≤ LONGEST_SOURCE }
    ensures found { IfOk result (IsWellTyped bytes.now) }
    ensures free { IfOk result (λ checked. barred high checked ≡ None) }
    ensures refused { IfErr result (λ refusal. refusal ≢ Refusal.Memory → FaultyTo (Reach.shown high Reach.program) bytes.now refusal) }
{
    let checked = checked_source(alloc, bytes)?;
    match barred(high, &checked) {
        None => Ok(checked),
        Some(at) => {
            drop(checked);
            Err(Refusal::LocationTest(at))
        }
    }
}

/// The offset of what bars a program from being shown so: where migration is one step, its first location test.
fn barred(high: HighText, checked: &Checked) -> Option<u32>
    ensures { result ≡ barred high checked.now }
{
    match high {
        HighText::OneStep => first_test(checked),
        HighText::Absent | HighText::TwoSteps => None,
    }
}

/// The high text of a run, where it is asked for, and nothing where it is not.
pub(crate) fn high_part(
    alloc: Global,
    high: HighText,
    checked: &Checked,
    events: &[Event],
) -> Result<Text, Memory>
    requires run { IsSome (run (start_high checked.now) events.now) }
    requires free { barred high checked.now ≡ None }
    ensures text { IfOk result (λ text. text ≡ high_part high (start_high checked.now) events.now) }
    ensures shown { IfOk result (λ _. IsShownSo high checked.now events.now) }
{
    match high {
        HighText::Absent => Ok(List::new(alloc)),
        HighText::TwoSteps => write_high(alloc, events),
        HighText::OneStep => one_step_text(alloc, checked, events),
    }
}

/// The high text of a run with migration in one step.
fn one_step_text(alloc: Global, checked: &Checked, events: &[Event]) -> Result<Text, Memory>
    requires run { IsSome (run (start_high checked.now) events.now) }
    requires free { barred HighText.OneStep checked.now ≡ None }
    ensures text { IfOk result (λ text. text ≡ high_text (one_step (start_high checked.now) events.now)) }
    ensures shown { IfOk result (λ _. IsStepped checked.now events.now (one_step (start_high checked.now) events.now)) }
{
    let stepped = one_step(alloc, checked, events)?;
    write_high(alloc, stepped.as_slice())
}
