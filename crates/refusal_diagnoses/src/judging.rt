//! What is told of a source: nothing where np accepts it, or its refusal.

ghost use Rattle.std.specs.Prelude.{◌≡◌, ◌≢◌, ◌≤◌, ◌<◌, [], ◌^◌, length, IfOk};
ghost use Rattle.np_syntax.specs.declared.limits.TheConstants.{LONGEST_SOURCE};
ghost use Rattle.np_verdict.specs.declared.refusal.Refusal.TheVariants as refusals;
ghost use Rattle.np_verdict.specs.declared.statuses.TheConstants.{BAD_USAGE, DONE};
ghost use Rattle.refusal_diagnoses.specs.Diagnoses.{IsUsage};
ghost use Rattle.refusal_diagnoses.specs.Judged.{IsJudged, IsRefused};

use super::source::source_reasons;
use super::telling::{diagnosis, usage_text};
use np_syntax::{LONGEST_SOURCE, List, Memory, Text};
use np_verdict::{BAD_USAGE, DONE, Refusal, checked_source, status};
use source_places::Reasons;
use std::alloc::Global;

/// What is told, and the exit status: nothing where nothing is refused.
#[derive(Drop)]
pub struct Told {
    pub text: Text,
    pub status: u8,
}

/// What is told of a refusal of the text of a file.
pub fn told_of(
    alloc: Global,
    file: &[u8],
    bytes: &[u8],
    refusal: Refusal,
    reasons: &Reasons,
) -> Result<Told, Memory>
    requires { length bytes.now < 2 ^ 31 }
    ensures { IfOk result (IsRefused file.now bytes.now refusal) }
{
    let text = diagnosis(alloc, file, bytes, refusal, reasons)?;
    Ok(Told {
        text,
        status: status(refusal),
    })
}

/// What is told of words that np does not take.
pub fn told_usage(alloc: Global, lines: &[Text]) -> Result<Told, Memory>
    ensures text { IfOk result (λ told. IsUsage told.text) }
    ensures status { IfOk result (λ told. told.status ≡ BAD_USAGE) }
{
    let text = usage_text(alloc, lines)?;
    Ok(Told {
        text,
        status: BAD_USAGE,
    })
}

/// Nothing is refused.
pub fn nothing(alloc: Global) -> Told
    ensures text { result.text ≡ [] }
    ensures status { result.status ≡ DONE }
{
    Told {
        text: List::new(alloc),
        status: DONE,
    }
}

/// What is told of the refusal of the source of a file: nothing for want of memory.
fn told_source(alloc: Global, file: &[u8], bytes: &[u8], refusal: Refusal) -> Result<Told, Memory>
    requires { length bytes.now ≤ LONGEST_SOURCE }
    ensures { IfOk result (λ told. (refusal ≢ refusals.Memory) × IsRefused file.now bytes.now refusal told) }
{
    match refusal {
        Refusal::Memory => Err(Memory),
        _ => {
            let reasons = source_reasons(alloc, bytes, refusal)?;
            let told = told_of(alloc, file, bytes, refusal, &reasons)?;
            Ok(told)
        }
    }
}

/// What is told of the source of a file.
pub fn judged(alloc: Global, file: &[u8], bytes: &[u8]) -> Result<Told, Memory>
    requires { length bytes.now ≤ LONGEST_SOURCE }
    ensures { IfOk result (IsJudged file.now bytes.now) }
{
    match checked_source(alloc, bytes) {
        Ok(checked) => {
            drop(checked);
            Ok(nothing(alloc))
        }
        Err(refusal) => told_source(alloc, file, bytes, refusal),
    }
}
