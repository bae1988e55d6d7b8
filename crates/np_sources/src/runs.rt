//! Runs of a source, with their reports: at the high level, and of its low program.

ghost use Rattle.std.specs.Prelude.{◌≡◌, ◌≢◌, ◌≤◌, [], length, Ok, IfOk, IfErr, None};
ghost use Rattle.np_calculus.specs.Runs.{RunsWell};
ghost use Rattle.np_calculus.specs.Starts.{start_low};
ghost use Rattle.np_verdict.specs.Report.{report_text};
ghost use Rattle.np_sources.specs.Reaches.{Reach, FaultyTo, barred};
ghost use Rattle.np_sources.specs.Makes.{HasRun, IsLowRunOf, IsReportOf, IsRunOf, Runs, RunsLow};

use super::high::{checked_for, high_part};
use super::job::MadeRun;
use super::lowering::low_of;
use np_check::Checked;
use np_safety::law_runs_well;
use np_serial::{SerialRun, run_serial, run_serial_low};
use np_syntax::{LONGEST_SOURCE, LowProgram, Memory, Text};
use np_verdict::{Refusal, report};
use np_words::{HighText, Infrastructure};
use std::alloc::Global;

/// The run of a source at the high level, with the text of its report, which has such a high text.
pub(crate) fn run_of(
    alloc: Global,
    budget: u32,
    high: HighText,
    bytes: &[u8],
) -> Result<(MadeRun, Text), Refusal>
    requires { length bytes.now ≤ LONGEST_SOURCE }
    ensures made { IfOk result (λ made. Runs budget high bytes.now made.0 made.1) }
    ensures refused { IfErr result (λ refusal. refusal ≢ Refusal.Memory → FaultyTo (Reach.shown high Reach.program) bytes.now refusal) }
{
    let checked = checked_for(alloc, high, bytes)?;
    let made = run(alloc, budget, high, &checked);
    drop(checked);
    match made {
        Ok(made) => Ok(made),
        Err(Memory) => Err(Refusal::Memory),
    }
}

/// Runs the program and makes the report.
fn run(
    alloc: Global,
    budget: u32,
    high: HighText,
    checked: &Checked,
) -> Result<(MadeRun, Text), Memory>
    requires { barred high checked.now ≡ None }
    ensures { IfOk result (λ made. IsRunOf budget high checked.now made.0 made.1) }
{
    law_runs_well();
    match run_serial(alloc, checked.program(), budget) {
        Ok(made) => with_report(alloc, high, checked, made),
        Err(memory) => Err(memory),
    }
}

/// A run and its report.
fn with_report(
    alloc: Global,
    high: HighText,
    checked: &Checked,
    made: SerialRun,
) -> Result<(MadeRun, Text), Memory>
    requires free { barred high checked.now ≡ None }
    requires run { HasRun checked.now made.events made.last }
    ensures { IfOk result (λ both. (both.0 ≡ record { events = made.events; end = made.end })
        × IsReportOf high checked.now made.events made.last made.end both.1) }
{
    let text = report_of(alloc, high, checked, &made);
    reported(made, text)
}

/// What is kept of a run, with its report, if that was made. The last configuration is given up.
fn reported(made: SerialRun, text: Result<Text, Memory>) -> Result<(MadeRun, Text), Memory>
    ensures run { IfOk result (λ both. both.0 ≡ record { events = made.events; end = made.end }) }
    ensures text { IfOk result (λ both. text ≡ Ok both.1) }
{
    let SerialRun { events, last, end } = made;
    drop(last);
    Ok((MadeRun { events, end }, text?))
}

/// The report of a run.
fn report_of(
    alloc: Global,
    high: HighText,
    checked: &Checked,
    made: &SerialRun,
) -> Result<Text, Memory>
    requires free { barred high checked.now ≡ None }
    requires run { HasRun checked.now made.now.events made.now.last }
    ensures { IfOk result (IsReportOf high checked.now made.now.events made.now.last made.now.end) }
{
    let between = high_part(alloc, high, checked, made.events.as_slice())?;
    let sites = &checked.program().sites;
    report(
        alloc,
        sites,
        made.last.get().said(),
        between.as_slice(),
        made.end,
    )
}

/// Runs the low program of a source in one thread, one event after another, for at most so many events, and makes the
/// report. It is the plain run with which other ways to run a low program can be compared.
pub fn run_low(
    alloc: Global,
    infrastructure: Infrastructure,
    budget: u32,
    bytes: &[u8],
) -> Result<(MadeRun, Text), Refusal>
    requires { length bytes.now ≤ LONGEST_SOURCE }
    ensures made { IfOk result (λ made. RunsLow infrastructure budget bytes.now made.0 made.1) }
    ensures refused { IfErr result (λ refusal. refusal ≢ Refusal.Memory → FaultyTo (Reach.low infrastructure) bytes.now refusal) }
{
    let low = low_of(alloc, infrastructure, bytes)?;
    match run_encoded(alloc, budget, &low) {
        Ok(made) => Ok(made),
        Err(Memory) => Err(Refusal::Memory),
    }
}

/// Runs a low program and makes the report.
fn run_encoded(alloc: Global, budget: u32, low: &LowProgram) -> Result<(MadeRun, Text), Memory>
    requires { RunsWell (start_low low.now) low.now.at }
    ensures { IfOk result (λ made. IsLowRunOf budget low.now made.0 made.1) }
{
    match run_serial_low(alloc, low, budget) {
        Ok(made) => with_low_report(alloc, low, made),
        Err(memory) => Err(memory),
    }
}

/// A run of a low program and its report.
fn with_low_report(
    alloc: Global,
    low: &LowProgram,
    made: SerialRun,
) -> Result<(MadeRun, Text), Memory>
    ensures { IfOk result (λ both. (both.0 ≡ record { events = made.events; end = made.end })
        × (both.1 ≡ report_text low.now.sites made.last.said [] made.end)) }
{
    let text = report(alloc, &low.sites, made.last.get().said(), b"", made.end);
    reported(made, text)
}
