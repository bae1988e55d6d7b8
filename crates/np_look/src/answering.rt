//! From what was made, or why nothing was, to the exit status and to what is written.

ghost use Rattle.std.specs.Prelude.{◌≡◌, ◌⊎◌, IfErr, IfOk};
ghost use Rattle.np_verdict.specs.Lines.{status_of};
ghost use Rattle.np_verdict.specs.declared.statuses.TheConstants.{NO_MEMORY, WRITE_FAILED};
ghost use Rattle.np_look.specs.Endings.{end_status};

use look_sources::Shown;
use np_io::{Sink, write_all};
use np_syntax::End;
use np_verdict::{BUDGET_SPENT, DONE, NO_MEMORY, READ_FAILED, Refusal, WRITE_FAILED, line, status};
use refusal_diagnoses::Told;
use std::alloc::Global;

/// Writes the picture that was made on `out`, or the line of its refusal on `err`, and answers the exit status: the one that np
/// has, unless that cannot be written.
pub fn answer_of<O: Sink, E: Sink>(
    alloc: Global,
    made: Result<Shown, Refusal>,
    out: &mut O,
    err: &mut E,
) -> u8
    ensures shown { IfOk made (λ shown. (result ≡ end_status shown.end) ⊎ (result ≡ WRITE_FAILED)) }
    ensures refused { IfErr made (λ refusal. (result ≡ status_of refusal) ⊎ ((result ≡ WRITE_FAILED) ⊎ (result ≡ NO_MEMORY))) }
{
    match made {
        Ok(Shown { text, end }) => match write_all(out, text.as_slice()) {
            Ok(()) => end_status(end),
            Err(_) => WRITE_FAILED,
        },
        Err(refusal) => refuse(alloc, refusal, err),
    }
}

/// Writes what is told on `out`, or the line of what keeps from telling it on `err`, and answers the exit status.
pub fn answer_why<O: Sink, E: Sink>(
    alloc: Global,
    made: Result<Told, Refusal>,
    out: &mut O,
    err: &mut E,
) -> u8
    ensures told { IfOk made (λ told. (result ≡ told.status) ⊎ (result ≡ WRITE_FAILED)) }
    ensures refused { IfErr made (λ refusal. (result ≡ status_of refusal) ⊎ ((result ≡ WRITE_FAILED) ⊎ (result ≡ NO_MEMORY))) }
{
    match made {
        Ok(Told { text, status }) => match write_all(out, text.as_slice()) {
            Ok(()) => status,
            Err(_) => keep_from(err, b"np_look: 6 WriteFault\n", WRITE_FAILED),
        },
        Err(Refusal::ReadFault) => keep_from(err, b"np_look: 4 ReadFault\n", READ_FAILED),
        Err(refusal) => refuse(alloc, refusal, err),
    }
}

/// Writes what keeps np_look from telling, and answers the status.
fn keep_from<E: Sink>(err: &mut E, line: &[u8], status: u8) -> u8
    ensures { (result ≡ status) ⊎ (result ≡ WRITE_FAILED) }
{
    match write_all(err, line) {
        Ok(()) => status,
        Err(_) => WRITE_FAILED,
    }
}

/// Writes the line of a refusal, and answers its status.
fn refuse<E: Sink>(alloc: Global, refusal: Refusal, err: &mut E) -> u8
    ensures { (result ≡ status_of refusal) ⊎ ((result ≡ WRITE_FAILED) ⊎ (result ≡ NO_MEMORY)) }
{
    match line(alloc, refusal) {
        Ok(text) => match write_all(err, text.as_slice()) {
            Ok(()) => status(refusal),
            Err(_) => WRITE_FAILED,
        },
        Err(_) => NO_MEMORY,
    }
}

/// The exit status once the whole picture was written: 1 for a run whose budget is spent, otherwise 0.
fn end_status(end: End) -> u8
    ensures { result ≡ end_status end }
{
    match end {
        End::Rest => DONE,
        End::Spent => BUDGET_SPENT,
    }
}
