//! From the words to a plan.

ghost use Rattle.std.specs.Prelude.{◌≡◌, ◌≤◌, option_map, IfOk, IfSome};
ghost use Rattle.np_syntax.specs.declared.limits.TheConstants.{LARGEST_BUDGET};
ghost use Rattle.np_words.specs.Arguments.{seen};
ghost use Rattle.np_words.specs.Plans as spec;

use super::arguments::{Given, command, given_by};
use super::fail::PlanFail;
use super::modes::{
    Entry, HighText, Infrastructure, Links, Mode, Options, entry_of, infrastructure_of, links_of,
};
use super::numerals::{FIRST_LINE, LAST_LINE, LINE_DIGITS, MOST_DIGITS, number_of};
use clap::error::ErrorKind;
use np_generate::MOST_AGENTS;
use np_io::Word;
use np_syntax::{LARGEST_BUDGET, USUAL_BUDGET};
use std::alloc::Global;

/// What is done with a source.
#[derive(Clone, Copy)]
pub enum Task {
    /// Its low program of this infrastructure is run on the sites, each of which makes at most `budget` events: one after
    /// another with `serial`, or each on a thread of its own. With `history` the report has the merged history, and `high` says
    /// whether it has the run of the high level that is read off it.
    Run {
        budget: u32,
        history: bool,
        high: HighText,
        serial: bool,
        links: Links,
        infrastructure: Infrastructure,
    },
    /// It is run at the high level, with at most `budget` events. `history` says whether the report has them.
    High {
        budget: u32,
        history: HighText,
    },
    Show,
    Check,
    Low {
        infrastructure: Infrastructure,
    },
}

/// What is shown of a history that is replayed.
#[derive(Clone, Copy)]
pub enum View {
    /// What the run printed.
    Said,
    /// One line of that, counted from 1, and the events that led to it.
    Past { line: u32 },
}

/// What the words ask for: a mode with its operands and options.
pub enum Plan {
    /// A mode that reads one source.
    Source {
        file: Word,
        task: Task,
    },
    /// A history of the low program of a source is replayed.
    Replay {
        source: Word,
        history: Word,
        infrastructure: Infrastructure,
        view: View,
    },
    /// The low program of a source is run on the sites, from a saved history on, whose events count for the budget too. The
    /// other fields are as in `Task::Run`, but that a migration is always a Depart and later an Arrive in the high text.
    Resume {
        source: Word,
        saved: Word,
        budget: u32,
        history: bool,
        high: bool,
        serial: bool,
        links: Links,
        infrastructure: Infrastructure,
    },
    Upgrade {
        history: Word,
    },
    Generate {
        agents: u32,
    },
    /// The generated source is run.
    Load {
        agents: u32,
        serial: bool,
        links: Links,
        infrastructure: Infrastructure,
    },
}

impl Drop for Plan {
    fn drop(self) {
        match self {
            Plan::Source { file: _, task: _ }
            | Plan::Replay {
                source: _,
                history: _,
                infrastructure: _,
                view: _,
            }
            | Plan::Resume {
                source: _,
                saved: _,
                budget: _,
                history: _,
                high: _,
                serial: _,
                links: _,
                infrastructure: _,
            }
            | Plan::Upgrade { history: _ }
            | Plan::Generate { agents: _ }
            | Plan::Load {
                agents: _,
                serial: _,
                links: _,
                infrastructure: _,
            } => {}
        }
    }
}

/// A word stands there only where it may.
fn only(may: bool, stands: bool) -> bool
    ensures { result ≡ spec.only may stands }
{
    may || !stands
}

/// Whether no option on how a run goes stands there that the mode does not have.
fn runs_so(options: &Options, given: &Given<'_>) -> bool
    ensures { result ≡ spec.runs_so options.now (seen given.now) }
{
    only(options.budget, given.budget.is_some())
        && only(options.serial, given.serial)
        && only(options.links, given.links.is_some())
        && only(options.infrastructure, given.infrastructure.is_some())
}

/// Whether no option on what is shown stands there that the mode does not have.
fn shows_so(options: &Options, given: &Given<'_>) -> bool
    ensures { result ≡ spec.shows_so options.now (seen given.now) }
{
    only(options.history, given.history)
        && only(options.high, given.high)
        && only(options.line, given.line.is_some())
        && only(options.one, given.one)
}

/// Whether SECOND stands there exactly where the mode has one, and no option that the mode does not have.
fn is_met(entry: &Entry, given: &Given<'_>) -> bool
    ensures { result ≡ spec.is_met entry.now (seen given.now) }
{
    entry.second == given.second.is_some()
        && runs_so(&entry.options, given)
        && shows_so(&entry.options, given)
}

fn budget_of(word: Option<&str>) -> Option<u32>
    ensures is { result ≡ spec.budget_of (option_map (λ text. text.now) word.entry) }
    ensures bounds { IfSome result (λ n. (1 ≤ n) × (n ≤ LARGEST_BUDGET)) }
{
    match word {
        Some(word) => number_of(MOST_DIGITS, LARGEST_BUDGET, word),
        None => Some(USUAL_BUDGET),
    }
}

fn line_of(word: Option<&str>) -> Option<u32>
    ensures is { result ≡ spec.line_of (option_map (λ text. text.now) word.entry) }
    ensures bounds { IfSome result (λ n. 1 ≤ n) }
{
    match word {
        Some(word) => number_of(LINE_DIGITS, LAST_LINE, word),
        None => Some(FIRST_LINE),
    }
}

/// The text of the events of the high level, where it is asked for or not. It has `--one` only where it is asked for.
fn high_text(asked: bool, one: bool) -> Option<HighText>
    ensures { result ≡ spec.high_text asked one }
{
    match (asked, one) {
        (false, false) => Some(HighText::Absent),
        (false, true) => None,
        (true, false) => Some(HighText::TwoSteps),
        (true, true) => Some(HighText::OneStep),
    }
}

fn kind_of(word: Option<&str>) -> Option<Links>
    ensures { result ≡ spec.kind_of (option_map (λ text. text.now) word.entry) }
{
    match word {
        Some(word) => links_of(word),
        None => Some(Links::Rings),
    }
}

fn infrastructure_given(word: Option<&str>) -> Option<Infrastructure>
    ensures { result ≡ spec.infrastructure_given (option_map (λ text. text.now) word.entry) }
{
    match word {
        Some(word) => infrastructure_of(word),
        None => Some(Infrastructure::Central),
    }
}

fn run_of(given: &Given<'_>) -> Option<Task>
    ensures is { result ≡ spec.run_of (seen given.now) }
    ensures limits { IfSome result spec.HasBudget }
{
    Some(Task::Run {
        budget: budget_of(given.budget)?,
        history: given.history,
        high: high_text(given.high, given.one)?,
        serial: given.serial,
        links: kind_of(given.links)?,
        infrastructure: infrastructure_given(given.infrastructure)?,
    })
}

fn high_of(given: &Given<'_>) -> Option<Task>
    ensures is { result ≡ spec.high_of (seen given.now) }
    ensures limits { IfSome result spec.HasBudget }
{
    Some(Task::High {
        budget: budget_of(given.budget)?,
        history: high_text(given.history, given.one)?,
    })
}

fn low_of(given: &Given<'_>) -> Option<Task>
    ensures is { result ≡ spec.low_of (seen given.now) }
    ensures limits { IfSome result spec.HasBudget }
{
    let infrastructure = infrastructure_given(given.infrastructure)?;
    Some(Task::Low { infrastructure })
}

/// The plan where FILE is a source.
fn on_source(alloc: Global, file: &str, task: Option<Task>) -> Result<Plan, PlanFail>
    requires { IfSome task spec.HasBudget }
    ensures plans { spec.Plans (spec.on_source file.now task) result }
    ensures limits { IfOk result spec.IsWithinLimits }
{
    let task = task.ok_or(PlanFail::Usage)?;
    Ok(Plan::Source {
        file: Word::new(alloc, file)?,
        task,
    })
}

/// The plan where FILE is a source and SECOND a history.
fn on_history(
    alloc: Global,
    file: &str,
    given: &Given<'_>,
    view: Option<View>,
) -> Result<Plan, PlanFail>
    requires { IfSome view spec.HasLine }
    ensures plans { spec.Plans (spec.on_history file.now (seen given.now) view) result }
    ensures limits { IfOk result spec.IsWithinLimits }
{
    let second = given.second.ok_or(PlanFail::Usage)?;
    let infrastructure = infrastructure_given(given.infrastructure).ok_or(PlanFail::Usage)?;
    let view = view.ok_or(PlanFail::Usage)?;
    Ok(Plan::Replay {
        source: Word::new(alloc, file)?,
        history: Word::new(alloc, second)?,
        infrastructure,
        view,
    })
}

/// The plan where FILE is a source and SECOND a saved history, from which on it is run.
fn resume_of(alloc: Global, file: &str, given: &Given<'_>) -> Result<Plan, PlanFail>
    ensures plans { spec.Plans (spec.resume_of file.now (seen given.now)) result }
    ensures limits { IfOk result spec.IsWithinLimits }
{
    let saved = given.second.ok_or(PlanFail::Usage)?;
    let budget = budget_of(given.budget).ok_or(PlanFail::Usage)?;
    let links = kind_of(given.links).ok_or(PlanFail::Usage)?;
    let infrastructure = infrastructure_given(given.infrastructure).ok_or(PlanFail::Usage)?;
    Ok(Plan::Resume {
        source: Word::new(alloc, file)?,
        saved: Word::new(alloc, saved)?,
        budget,
        history: given.history,
        high: given.high,
        serial: given.serial,
        links,
        infrastructure,
    })
}

/// The past of the line that the words say.
fn past_of(given: &Given<'_>) -> Option<View>
    ensures is { result ≡ spec.past_of (seen given.now) }
    ensures limits { IfSome result spec.HasLine }
{
    let line = line_of(given.line)?;
    Some(View::Past { line })
}

/// The plan where FILE is a history.
fn upgrade_of(alloc: Global, file: &str) -> Result<Plan, PlanFail>
    ensures plans { spec.Plans (spec.upgrade_of file.now) result }
    ensures limits { IfOk result spec.IsWithinLimits }
{
    Ok(Plan::Upgrade {
        history: Word::new(alloc, file)?,
    })
}

/// The plan where FILE is a number.
fn generate_of(file: &str) -> Result<Plan, PlanFail>
    ensures plans { spec.Plans (spec.generate_of file.now) result }
    ensures limits { IfOk result spec.IsWithinLimits }
{
    match number_of(MOST_DIGITS, MOST_AGENTS, file) {
        Some(agents) => Ok(Plan::Generate { agents }),
        None => Err(PlanFail::Usage),
    }
}

/// The plan where FILE is a number, and the generated source is run.
fn load_of(file: &str, given: &Given<'_>) -> Result<Plan, PlanFail>
    ensures plans { spec.Plans (spec.load_of file.now (seen given.now)) result }
    ensures limits { IfOk result spec.IsWithinLimits }
{
    let agents = number_of(MOST_DIGITS, MOST_AGENTS, file).ok_or(PlanFail::Usage)?;
    let links = kind_of(given.links).ok_or(PlanFail::Usage)?;
    let infrastructure = infrastructure_given(given.infrastructure).ok_or(PlanFail::Usage)?;
    Ok(Plan::Load {
        agents,
        serial: given.serial,
        links,
        infrastructure,
    })
}

fn plan_for(alloc: Global, mode: Mode, file: &str, given: &Given<'_>) -> Result<Plan, PlanFail>
    ensures plans { spec.Plans (spec.plan_for mode file.now (seen given.now)) result }
    ensures limits { IfOk result spec.IsWithinLimits }
{
    match mode {
        Mode::Run => on_source(alloc, file, run_of(given)),
        Mode::High => on_source(alloc, file, high_of(given)),
        Mode::Show => on_source(alloc, file, Some(Task::Show)),
        Mode::Check => on_source(alloc, file, Some(Task::Check)),
        Mode::Low => on_source(alloc, file, low_of(given)),
        Mode::Replay => on_history(alloc, file, given, Some(View::Said)),
        Mode::Past => on_history(alloc, file, given, past_of(given)),
        Mode::Resume => resume_of(alloc, file, given),
        Mode::Upgrade => upgrade_of(alloc, file),
        Mode::Gen => generate_of(file),
        Mode::Load => load_of(file, given),
    }
}

/// The mode that the word names, if it is built.
fn entry_given(word: Option<&str>) -> Option<Entry>
    ensures { result ≡ spec.entry_given (option_map (λ text. text.now) word.entry) }
{
    entry_of(word?)
}

/// The plan of words that were taken, if they meet the table of the modes.
fn planned(alloc: Global, given: &Given<'_>) -> Result<Plan, PlanFail>
    ensures plans { spec.Plans (spec.planned (seen given.now)) result }
    ensures limits { IfOk result spec.IsWithinLimits }
{
    let entry = entry_given(given.mode).ok_or(PlanFail::Usage)?;
    let file = given.file.ok_or(PlanFail::Usage)?;
    if !is_met(&entry, given) {
        return Err(PlanFail::Usage);
    }
    plan_for(alloc, entry.mode, file, given)
}

/// What the words ask for, if they ask for something that the program does.
pub fn plan_of(alloc: Global, words: &[Word]) -> Result<Plan, PlanFail>
    ensures plans { spec.Plans (spec.plan words.now) result }
    ensures limits { IfOk result spec.IsWithinLimits }
{
    let Ok(command) = command(alloc) else {
        return Err(PlanFail::Memory);
    };
    match command.try_get_matches_from(words) {
        Ok(matches) => planned(alloc, &given_by(&matches)),
        Err(error) => match error.kind() {
            ErrorKind::OutOfMemory => Err(PlanFail::Memory),
            _ => Err(PlanFail::Usage),
        },
    }
}
