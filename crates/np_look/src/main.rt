//! np_look: the program that shows runs to people. `picture` writes the picture of a history of a source, or of a run of it; `page`
//! writes such a run as one HTML file, and `shiviz` a history as a log; `why` tells why np refuses a source or a history; `run` makes a
//! run in which a seed chooses each next event, and `runs` many; `follow` follows the high text of a run.
//!
//! Each mode has a library: `look_pictures`, `look_pages`, `look_runs`, `look_reasons`; `look_words` reads the words. A source or a
//! history that is refused has the line and the exit status that np gives it, and nothing is written on the output then. A picture
//! that is written whole has the status of its run.
//!
//! Contracts: `answer_of`, `answer_why`.
#![tactic(auto)]

mod answering;
mod colours;
mod progress;
mod reasons;

use answering::{answer_of, answer_why};
use clap::error::ErrorKind;
use colours::{are_wanted, dressed};
use look_pages::page;
use look_pictures::{log_of, picture};
use look_reasons::reason_of_words;
use look_runs::{Progress, followed_shown, run_shown, runs_shown};
use look_sources::Shown;
use look_words::{Asked, asked_by};
use np_io::{ErrSink, FileTexts, OutSink, Sink, Texts, Word};
use np_syntax::{List, Memory};
use np_verdict::{BAD_USAGE, DONE, NO_MEMORY, Refusal, WRITE_FAILED};
use progress::Teller;
use reasons::reason;
use refusal_diagnoses::Told;
use std::alloc::Global;
use std::env;
use std::io::{Error, ErrorKind as Fault, IsTerminal};
use std::process::ExitCode;

/// What np_look reads from and writes to.
#[derive(Drop)]
struct Desk<T, S, E, P> {
    files: T,
    out: S,
    err: E,
    progress: P,
    in_colours: bool,
}

fn main(rt: HostRuntime) -> ExitCode {
    let texts: Vec<String> = match env::args(&rt) {
        Ok(args) => match args.collect(rt.alloc()) {
            Ok(texts) => texts,
            Err(_) => return ExitCode::from(NO_MEMORY),
        },
        Err(error) => return ExitCode::from(status_of(&error)),
    };
    let Ok(words) = words_of(rt.alloc(), texts.as_slice()) else {
        return ExitCode::from(NO_MEMORY);
    };
    let is_watched = rt.stderr().is_terminal();
    let mut desk = Desk {
        files: FileTexts::new(&rt),
        out: OutSink::new(rt.stdout()),
        err: ErrSink::new(rt.stderr()),
        progress: Teller::new(&rt, rt.stderr(), is_watched),
        in_colours: rt.stdout().is_terminal() && are_wanted(&rt),
    };
    let status = match asked_by(rt.alloc(), words.as_slice()) {
        Asked::Said(error) => match error.print(&rt) {
            Ok(()) => said_status(error.kind()),
            Err(_) => WRITE_FAILED,
        },
        asked => answered(rt.alloc(), &mut desk, asked),
    };
    ExitCode::from(status)
}

/// The exit status of the answer to what the words ask for.
fn answered<T: Texts, S: Sink, E: Sink, P: Progress>(
    alloc: Global,
    desk: &mut Desk<T, S, E, P>,
    asked: Asked,
) -> u8 {
    match asked {
        Asked::Work(wanted) => shown(alloc, picture(alloc, &mut desk.files, wanted), desk),
        Asked::Page(wanted) => shown(alloc, page(alloc, &mut desk.files, wanted), desk),
        Asked::Log(question) => shown(alloc, log_of(alloc, &mut desk.files, question), desk),
        Asked::Run(single) => shown(alloc, run_shown(alloc, &mut desk.files, &single), desk),
        Asked::Runs(several) => {
            let made = runs_shown(alloc, &mut desk.files, &mut desk.progress, &several);
            shown(alloc, made, desk)
        }
        Asked::Why(question) => told(alloc, reason(alloc, &mut desk.files, question), desk),
        Asked::Np(words) => {
            let made = reason_of_words(alloc, &mut desk.files, words.as_slice());
            told(alloc, made, desk)
        }
        Asked::Follow(following) => {
            let made = followed_shown(alloc, &mut desk.files, &following);
            told(alloc, made, desk)
        }
        Asked::NoMemory => NO_MEMORY,
        Asked::Usage | Asked::Said(_) => shown(alloc, Err(Refusal::Usage), desk),
    }
}

/// Writes what is shown.
fn shown<T: Texts, S: Sink, E: Sink, P: Progress>(
    alloc: Global,
    made: Result<Shown, Refusal>,
    desk: &mut Desk<T, S, E, P>,
) -> u8 {
    answer_of(alloc, made, &mut desk.out, &mut desk.err)
}

/// Writes what is told.
fn told<T: Texts, S: Sink, E: Sink, P: Progress>(
    alloc: Global,
    made: Result<Told, Refusal>,
    desk: &mut Desk<T, S, E, P>,
) -> u8 {
    let made = dressed(alloc, made, desk.in_colours);
    answer_why(alloc, made, &mut desk.out, &mut desk.err)
}

/// The exit status where clap has the last word: help and the version are asked for, all else is a fault of usage.
fn said_status(kind: ErrorKind) -> u8 {
    match kind {
        ErrorKind::DisplayHelp | ErrorKind::DisplayVersion => DONE,
        ErrorKind::OutOfMemory => NO_MEMORY,
        _ => BAD_USAGE,
    }
}

/// The exit status where the command line cannot be read: out of memory, or a word that is not UTF-8.
fn status_of(error: &Error) -> u8 {
    if error.kind() == Fault::OutOfMemory {
        NO_MEMORY
    } else {
        BAD_USAGE
    }
}

/// The words behind the program's name; where there are none, help is asked for.
fn words_of(alloc: Global, texts: &[String]) -> Result<List<Word>, Memory> {
    let mut words = List::new(alloc);
    for text in texts.iter().skip(1) {
        words.add(Word::new(alloc, text.as_str())?)?;
    }
    if words.len() == 0 {
        words.add(Word::new(alloc, "--help")?)?;
    }
    Ok(words)
}
