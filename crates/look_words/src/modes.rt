//! The modes and their arguments, as a table from which clap's command is made.

use clap::builder::ValueParser;
use clap::{Arg, ArgAction, Command};
use std::alloc::{AllocError, Global};

/// What stands behind a mode, by its name and with what the help says of it: a word that has to stand in its place, or may; an option
/// with a value, with one of some words (the first where it is left out), with a number from 1 on, or without a value.
#[derive(Clone, Copy)]
enum Argument {
    Operand(&'static str, &'static str),
    Further(&'static str, &'static str),
    Valued(&'static str, &'static str),
    Choice(&'static str, &'static [&'static str], &'static str),
    Number(&'static str, &'static str),
    Flag(&'static str, &'static str),
}

/// A mode with its arguments, in the order of its help.
#[derive(Clone, Copy)]
struct Mode {
    name: &'static str,
    about: &'static str,
    behind: &'static str,
    arguments: &'static [Argument],
}

const ABOUT: &str = "Shows runs of Nomadic Pict programs to people";

const VERSION: &str = "1, proved with rattle-kit-13f";

const EXAMPLE: &str = "Example: np_look picture letter.np > letter.svg";

const GENERATOR: &str =
    "The generator is PCG-XSH-RR 64/32 (Pcg32 of rand_pcg); a seed gives the same run on each machine.";

const VIEWS: [&str; 3] = ["low", "high", "both"];

const LEVELS: [&str; 2] = ["high", "low"];

const INFRASTRUCTURES: [&str; 2] = ["central", "cache"];

const SOURCE: Argument = Argument::Operand("FILE", "The source");

const HISTORY: Argument = Argument::Further(
    "HISTORY",
    "A history of a run of it; without one it is run",
);

const INFRA: Argument = Argument::Choice("infra", &INFRASTRUCTURES, "What passes messages on");

const BUDGET: Argument = Argument::Valued("budget", "How many events the run may have");

const SEED: Argument = Argument::Valued("seed", "Chooses each event of the run by this seed");

const RUN_LEVEL: Argument = Argument::Choice(
    "level",
    &LEVELS,
    "What the source says, or what the sites do",
);

const PICTURE: [Argument; 10] = [
    SOURCE,
    HISTORY,
    Argument::Choice(
        "level",
        &VIEWS,
        "What the source says, what the sites do, or both",
    ),
    INFRA,
    SEED,
    Argument::Number("from", "The first event to be shown"),
    Argument::Number("to", "The last event to be shown"),
    Argument::Valued(
        "agent",
        "Show only what agents of this name do and what names them",
    ),
    Argument::Number("past", "Show pale what did not lead to this printed line"),
    BUDGET,
];

const PAGE: [Argument; 5] = [SOURCE, HISTORY, INFRA, SEED, BUDGET];

const SHIVIZ: [Argument; 3] = [
    SOURCE,
    Argument::Operand("HISTORY", "A history of it"),
    INFRA,
];

const WHY: [Argument; 3] = [
    Argument::Operand("FILE", "The source, or the name or number of a refusal"),
    Argument::Further("HISTORY", "A history of it"),
    INFRA,
];

const RUN: [Argument; 6] = [
    SOURCE,
    RUN_LEVEL,
    INFRA,
    BUDGET,
    Argument::Valued("seed", "The seed, a number (0 if it is left out)"),
    Argument::Flag("history", "Writes the history too"),
];

const RUNS: [Argument; 7] = [
    SOURCE,
    RUN_LEVEL,
    INFRA,
    BUDGET,
    Argument::Valued("runs", "How many runs (100 if it is left out)"),
    Argument::Valued("from", "The first seed (1 if it is left out)"),
    Argument::Flag("unordered", "Counts two orders of the same lines as one"),
];

const FOLLOW: [Argument; 2] = [
    SOURCE,
    Argument::Operand("HIGH", "What `np high --history` or `np run --high` wrote"),
];

const MODES: [Mode; 7] = [
    Mode {
        name: "picture",
        about: "Writes the picture of a run, as SVG",
        behind: EXAMPLE,
        arguments: &PICTURE,
    },
    Mode {
        name: "page",
        about: "Writes a run as one HTML file, which needs no network",
        behind: "Example: np_look page letter.np > letter.html",
        arguments: &PAGE,
    },
    Mode {
        name: "shiviz",
        about: "Writes a history as a log that ShiViz reads",
        behind: "Example: np_look shiviz letter.np letter.history > letter.log",
        arguments: &SHIVIZ,
    },
    Mode {
        name: "why",
        about: "Tells why np refuses a source or a history, or what a refusal is",
        behind: "Examples: np_look why letter.np, np_look why Mismatch, np_look why -- run a.np --budget 0",
        arguments: &WHY,
    },
    Mode {
        name: "run",
        about: "Makes a run in which each next event is chosen by a seed among all that can happen",
        behind: GENERATOR,
        arguments: &RUN,
    },
    Mode {
        name: "runs",
        about: "Makes runs by many seeds, and writes each output once",
        behind: GENERATOR,
        arguments: &RUNS,
    },
    Mode {
        name: "follow",
        about: "Follows the high text of a run from the start of its source",
        behind: "Example: np high letter.np --history > letter.high; np_look follow letter.np letter.high",
        arguments: &FOLLOW,
    },
];

/// The first of some words.
fn first_of<'a>(words: &'a [&'a str]) -> &'a str {
    match words.first().copied() {
        Some(word) => word,
        None => "",
    }
}

/// An argument as clap has it.
fn arg_of<'a>(alloc: Global, argument: Argument) -> Arg<'a> {
    match argument {
        Argument::Operand(name, help) => Arg::new(alloc, name).required(true).help(help),
        Argument::Further(name, help) => Arg::new(alloc, name).help(help),
        Argument::Valued(name, help) => Arg::new(alloc, name).long(name).help(help),
        Argument::Choice(name, words, help) => Arg::new(alloc, name)
            .long(name)
            .help(help)
            .value_parser(words)
            .default_value(first_of(words)),
        Argument::Number(name, help) => Arg::new(alloc, name)
            .long(name)
            .help(help)
            .value_parser(ValueParser::Unsigned(1, 4_294_967_295)),
        Argument::Flag(name, help) => Arg::new(alloc, name)
            .long(name)
            .help(help)
            .action(ArgAction::SetTrue),
    }
}

/// A mode as clap has it.
fn command_of<'a>(alloc: Global, mode: &Mode) -> Result<Command<'a>, AllocError> {
    let mut command = Command::new(alloc, mode.name)
        .about(mode.about)
        .after_help(mode.behind);
    for argument in mode.arguments.iter() {
        command = command.arg(arg_of(alloc, *argument))?;
    }
    Ok(command)
}

/// The command line. The words leave out the program's name.
pub(super) fn command<'a>(alloc: Global) -> Result<Command<'a>, AllocError> {
    let mut command = Command::new(alloc, "np_look")
        .about(ABOUT)
        .version(VERSION)
        .after_help(EXAMPLE)
        .no_binary_name(true)
        .subcommand_required(true);
    for mode in MODES.iter() {
        command = command.subcommand(command_of(alloc, mode)?)?;
    }
    Ok(command)
}
