//! The program: takes the command line, the files and the streams of the process, and makes the top call.
//!
//! Contracts: none beyond that each call it makes meets its conditions.
#![tactic(auto)]

use np_io::{ErrSink, FileTexts, OutSink, Word};
use np_run::{BAD_USAGE, NO_MEMORY, np};
use np_syntax::{List, Memory};
use std::alloc::Global;
use std::env;
use std::io::{Error, ErrorKind};
use std::process::ExitCode;

fn main(rt: HostRuntime) -> ExitCode {
    let texts: Vec<String> = match env::args(&rt) {
        Ok(args) => match args.collect(rt.alloc()) {
            Ok(texts) => texts,
            Err(_) => return ExitCode::from(NO_MEMORY),
        },
        Err(error) => return ExitCode::from(status_of(&error)),
    };
    let Ok(words) = words_of(rt.alloc(), texts.as_slice()) else {
        return ExitCode::from(NO_MEMORY);
    };
    let mut files = FileTexts::new(&rt);
    let mut out = OutSink::new(rt.stdout());
    let mut err = ErrSink::new(rt.stderr());
    let answer = np(
        &rt,
        rt.alloc(),
        words.as_slice(),
        &mut files,
        &mut out,
        &mut err,
    );
    ExitCode::from(answer.told().status)
}

/// The exit status where the command line cannot be read: out of memory, or a word that is not
/// UTF-8.
fn status_of(error: &Error) -> u8 {
    if error.kind() == ErrorKind::OutOfMemory {
        NO_MEMORY
    } else {
        BAD_USAGE
    }
}

/// The words behind the program's name.
fn words_of(alloc: Global, texts: &[String]) -> Result<List<Word>, Memory> {
    let mut words = List::new(alloc);
    for text in texts.iter().skip(1) {
        words.add(Word::new(alloc, text.as_str())?)?;
    }
    Ok(words)
}
