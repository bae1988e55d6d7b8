//! The command line as one simple command of clap, and what the words give for its arguments.

ghost use Rattle.std.specs.Prelude.{◌≡◌, option_map, IfOk};
ghost use Rattle.clap.specs.Words.{App, app_of, with_rule, found_of, rows_of, first_of};
ghost use Rattle.np_words.specs.Arguments as spec;

use clap::{Arg, ArgAction, ArgMatches, Command};
use std::alloc::{AllocError, Global};

/// A word that has to stand there, in its place.
fn with_operand<'a>(
    alloc: Global,
    command: Result<Command<'a>, AllocError>,
    id: &'a str,
) -> Result<Command<'a>, AllocError>
    ensures { (app : App) → IfOk command.entry (λ shorter. app_of shorter ≡ app)
        → IfOk result (λ longer. app_of longer ≡ with_rule app (spec.operand id.entry.now)) }
{
    command?.arg(Arg::new(alloc, id).required(true))
}

/// A word that may stand there, in its place.
fn with_further<'a>(
    alloc: Global,
    command: Result<Command<'a>, AllocError>,
    id: &'a str,
) -> Result<Command<'a>, AllocError>
    ensures { (app : App) → IfOk command.entry (λ shorter. app_of shorter ≡ app)
        → IfOk result (λ longer. app_of longer ≡ with_rule app (spec.further id.entry.now)) }
{
    command?.arg(Arg::new(alloc, id))
}

/// An option with a value in the next word.
fn with_valued<'a>(
    alloc: Global,
    command: Result<Command<'a>, AllocError>,
    id: &'a str,
) -> Result<Command<'a>, AllocError>
    ensures { (app : App) → IfOk command.entry (λ shorter. app_of shorter ≡ app)
        → IfOk result (λ longer. app_of longer ≡ with_rule app (spec.valued id.entry.now)) }
{
    command?.arg(Arg::new(alloc, id).long(id))
}

/// An option without a value.
fn with_flag<'a>(
    alloc: Global,
    command: Result<Command<'a>, AllocError>,
    id: &'a str,
) -> Result<Command<'a>, AllocError>
    ensures { (app : App) → IfOk command.entry (λ shorter. app_of shorter ≡ app)
        → IfOk result (λ longer. app_of longer ≡ with_rule app (spec.flag id.entry.now)) }
{
    command?.arg(Arg::new(alloc, id).long(id).action(ArgAction::SetTrue))
}

/// The command line without its arguments. The words leave out the program's name.
fn start<'a>(alloc: Global) -> Command<'a>
    ensures { app_of result ≡ spec.start }
{
    Command::new(alloc, "np").no_binary_name(true)
}

/// With the mode and the files.
fn with_operands<'a>(
    alloc: Global,
    command: Result<Command<'a>, AllocError>,
) -> Result<Command<'a>, AllocError>
    ensures { (app : App) → IfOk command.entry (λ shorter. app_of shorter ≡ app)
        → IfOk result (λ longer. app_of longer ≡ spec.with_rules app spec.operands) }
{
    let command = with_operand(alloc, command, "mode");
    let command = with_operand(alloc, command, "file");
    with_further(alloc, command, "second")
}

/// With the options that say how a run is made, and what is written of it.
fn with_run_options<'a>(
    alloc: Global,
    command: Result<Command<'a>, AllocError>,
) -> Result<Command<'a>, AllocError>
    ensures { (app : App) → IfOk command.entry (λ shorter. app_of shorter ≡ app)
        → IfOk result (λ longer. app_of longer ≡ spec.with_rules app spec.run_options) }
{
    let command = with_valued(alloc, command, "budget");
    let command = with_flag(alloc, command, "history");
    let command = with_flag(alloc, command, "high");
    let command = with_flag(alloc, command, "serial");
    let command = with_valued(alloc, command, "links");
    with_valued(alloc, command, "infra")
}

/// The command line.
pub fn command<'a>(alloc: Global) -> Result<Command<'a>, AllocError>
    ensures { IfOk result (λ command. app_of command ≡ spec.command) }
{
    let command = with_operands(alloc, Ok(start(alloc)));
    let command = with_run_options(alloc, command);
    let command = with_valued(alloc, command, "line");
    with_flag(alloc, command, "one")
}

/// What stands for each argument.
#[derive(Clone, Copy)]
pub struct Given<'a> {
    pub mode: Option<&'a str>,
    pub file: Option<&'a str>,
    pub second: Option<&'a str>,
    pub budget: Option<&'a str>,
    pub history: bool,
    pub high: bool,
    pub serial: bool,
    pub links: Option<&'a str>,
    pub infrastructure: Option<&'a str>,
    pub line: Option<&'a str>,
    pub one: bool,
}

fn value<'a>(matches: &ArgMatches<'a>, id: &str) -> Option<&'a str>
    ensures { option_map (λ text. text.now) result ≡ first_of id.now (rows_of (found_of matches.now)) }
{
    matches.get_str(id)
}

/// Whether a flag was given.
fn is_set(matches: &ArgMatches<'_>, id: &str) -> bool
    ensures { result ≡ spec.is_set (first_of id.now (rows_of (found_of matches.now))) }
{
    match value(matches, id) {
        Some(text) => text == "true",
        None => false,
    }
}

/// What the words give.
pub fn given_by<'a>(matches: &ArgMatches<'a>) -> Given<'a>
    ensures { spec.seen result ≡ spec.given (rows_of (found_of matches.now)) }
{
    Given {
        mode: value(matches, "mode"),
        file: value(matches, "file"),
        second: value(matches, "second"),
        budget: value(matches, "budget"),
        history: is_set(matches, "history"),
        high: is_set(matches, "high"),
        serial: is_set(matches, "serial"),
        links: value(matches, "links"),
        infrastructure: value(matches, "infra"),
        line: value(matches, "line"),
        one: is_set(matches, "one"),
    }
}
