//! Runs worked examples: calls of np over texts and sinks in memory, each with what must come of it.
//!
//! The words name the files of examples. It prints how many calls did as they should, and of each one that did not what was
//! wanted and what came. With the words `history` and the file of a source it prints the history of the run of the source's
//! low program instead. An example is a list of calls, each a `Trial`: its words, its history, what is wanted (`Wanted`), and
//! which calls follow if that came (`Then`). What is read off a run on sites is made again at the high level.
//!
//! Contracts: none beyond that each call it makes meets its conditions.
#![tactic(auto)]

mod calling;
mod case;
mod changes;
mod counting;
mod following;
mod high_run;
mod low_run;
mod report;
mod tally;
mod trial;
mod trying;
mod verdict;

use case::Case;
use low_run::print_history;
use np_example_files::{Example, ExampleFail, examples_of};
use std::alloc::Global;
use std::rt::Files;
use std::sync::Wait;
use std::thread::Threads;
use std::{env, fs};
use tally::Tally;
use trying::try_case;

fn main(rt: HostRuntime) -> Result<(), ExampleFail> {
    let alloc = rt.alloc();
    let words: Vec<String> = env::args(&rt)?.collect(alloc)?;
    match words.as_slice() {
        [_, word, file] if word.as_str() == "history" => {
            print_history(&rt, alloc, file.as_str())
        }
        [_, files @ ..] => try_files(&rt, alloc, files),
        [] => Ok(()),
    }
}

/// Tries each example of some files.
fn try_files<R: Files + Alloc + Print + Threads + Wait + Sync>(
    rt: &R,
    alloc: Global,
    files: &[String],
) -> Result<(), ExampleFail> {
    let mut all = Tally::new();
    for file in files {
        let of_file = try_file(rt, alloc, file.as_str())?;
        tell(rt, file.as_str(), of_file)?;
        all.add(of_file);
    }
    tell(rt, "all files", all)
}

/// Prints what came of the calls of a file, or of all files. How many there are is told only if one did not as it should, so that a
/// further example changes nothing of what is printed.
fn tell<R: Print>(rt: &R, name: &str, tally: Tally) -> Result<(), ExampleFail> {
    let Tally { passed, failed } = tally;
    if failed == 0 && passed > 0 {
        println!(rt; "{name}: all calls passed")?;
    } else {
        println!(rt; "{name}: {passed} calls passed, {failed} failed")?;
    }
    Ok(())
}

/// The path of the folder that a file stands in, with its stroke; empty where the file is named alone.
fn folder_of(file: &str) -> &str {
    match file.rfind('/') {
        Some(stroke) => file.get(..stroke + 1).unwrap_or(""),
        None => "",
    }
}

/// Tries each example of a file.
fn try_file<R: Files + Alloc + Print + Threads + Wait + Sync>(
    rt: &R,
    alloc: Global,
    file: &str,
) -> Result<Tally, ExampleFail> {
    let text = fs::read_to_string(rt, file)?;
    let examples = examples_of(rt, alloc, folder_of(file), text.as_str())?;
    let tally = try_examples(rt, alloc, file, examples.as_slice());
    drop(examples);
    tally
}

/// Tries each of these examples of a file.
fn try_examples<R: Print + Threads + Wait + Sync>(
    rt: &R,
    alloc: Global,
    file: &str,
    examples: &[Example],
) -> Result<Tally, ExampleFail> {
    let mut tally = Tally::new();
    for example in examples {
        tally.add(try_example(rt, alloc, &Case::new(file, example))?);
    }
    Ok(tally)
}

/// Tries an example with each of its sources, or with its text `a` where it has no sources.
fn try_example<R: Print + Threads + Wait + Sync>(
    rt: &R,
    alloc: Global,
    case: &Case<'_>,
) -> Result<Tally, ExampleFail> {
    if case.example.sources.is_empty() {
        return try_case(rt, alloc, case);
    }
    let mut tally = Tally::new();
    for source in case.example.sources.iter() {
        let source = Some(source.as_str());
        tally.add(try_case(rt, alloc, &Case { source, ..*case })?);
    }
    Ok(tally)
}
