//! What is told of words of np, before np would do what they say.

ghost use Rattle.std.specs.Prelude.{IfErr, IfOk};
ghost use Rattle.look_reasons.specs.Unread.{IsUnread};

use super::files::{read_text, reason_of_history, unread};
use super::histories::{History, Purpose, of_lines};
use super::sources::{of_task, told};
use np_histories::LONGEST_HISTORY;
use np_io::{Texts, Word};
use np_syntax::{LONGEST_SOURCE, Memory};
use np_verdict::Refusal;
use np_words::{Infrastructure, Plan, PlanFail, Task, View, plan_of};
use refusal_diagnoses::{Told, nothing, told_usage};
use std::alloc::Global;
use usage_reasons::usage_lines;

/// What is told of words that np does not take.
fn of_usage(alloc: Global, words: &[Word]) -> Result<Told, Refusal>
    ensures { IfErr result IsUnread }
{
    match usage_lines(alloc, words) {
        Ok(lines) => told(told_usage(alloc, lines.as_slice())),
        Err(Memory) => Err(Refusal::Memory),
    }
}

/// What is told of the source of a file before np does with it what a task says.
fn of_source<T: Texts>(
    alloc: Global,
    texts: &mut T,
    file: &Word,
    task: Task,
) -> Result<Told, Refusal>
    ensures { IfErr result IsUnread }
{
    match read_text(alloc, texts, file, LONGEST_SOURCE, Refusal::TooLong) {
        Ok(bytes) => of_task(alloc, file, bytes.as_slice(), task),
        Err(refusal) => unread(alloc, file, refusal),
    }
}

/// What is told of the text of a history that is only read.
fn of_upgrade<T: Texts>(alloc: Global, texts: &mut T, file: &Word) -> Result<Told, Refusal>
    ensures { IfErr result IsUnread }
{
    match read_text(alloc, texts, file, LONGEST_HISTORY, Refusal::HistoryTooLong) {
        Ok(bytes) => of_lines(alloc, file, bytes.as_slice()),
        Err(refusal) => unread(alloc, file, refusal),
    }
}

/// What a view asks of a history.
fn history_for(infrastructure: Infrastructure, view: View) -> History {
    let purpose = match view {
        View::Said => Purpose::Replay,
        View::Past { line } => Purpose::Past(line),
    };
    History {
        infrastructure,
        purpose,
    }
}

/// What is told of a plan, before np would carry it out.
fn of_plan<T: Texts>(alloc: Global, texts: &mut T, plan: &Plan) -> Result<Told, Refusal>
    ensures { IfErr result IsUnread }
{
    match plan {
        Plan::Source { file, task } => of_source(alloc, texts, file, *task),
        Plan::Replay {
            source,
            history,
            infrastructure,
            view,
        } => {
            let asked = history_for(*infrastructure, *view);
            reason_of_history(alloc, texts, source, history, asked)
        }
        Plan::Resume {
            source,
            saved,
            budget,
            infrastructure,
            ..
        } => {
            let asked = History {
                infrastructure: *infrastructure,
                purpose: Purpose::Resume(*budget),
            };
            reason_of_history(alloc, texts, source, saved, asked)
        }
        Plan::Upgrade { history } => of_upgrade(alloc, texts, history),
        Plan::Generate { .. } | Plan::Load { .. } => Ok(nothing(alloc)),
    }
}

/// What is told of words of np: why np refuses what they say, before it runs anything.
pub fn reason_of_words<T: Texts>(
    alloc: Global,
    texts: &mut T,
    words: &[Word],
) -> Result<Told, Refusal>
    ensures { IfErr result IsUnread }
{
    match plan_of(alloc, words) {
        Ok(plan) => of_plan(alloc, texts, &plan),
        Err(PlanFail::Usage) => of_usage(alloc, words),
        Err(PlanFail::Memory) => Err(Refusal::Memory),
    }
}
