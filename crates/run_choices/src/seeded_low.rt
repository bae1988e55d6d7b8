//! Runs by seed of the low level, which the sites could make by themselves.

ghost use Rattle.std.specs.Prelude.{◌≡◌, ℕ, [], IfOk};
ghost use Rattle.np_calculus.specs.Runs.{RunsWell};
ghost use Rattle.np_calculus.specs.Starts.{start_low};
ghost use Rattle.np_serial.specs.Serial.{IsSerialRun};
ghost use Rattle.run_save.specs.Ours.{IsOurs, IsOursFrom};
ghost use Rattle.run_choices.specs.InTurn.{IsDrawn, IsOwnStart};

use super::choice::drawn;
use super::seeded::{end_of, first_waiting};
use super::serving::serve;
use np_configuration::{Cfg, start_low};
use np_serial::SerialRun;
use np_syntax::{Boxed, End, Event, List, LowProgram, Memory};
use rand_core::SeedableRng;
use rand_pcg::Pcg32;
use run_save::Notes;
use std::alloc::Global;

/// Runs a low program for at most so many events, each of them chosen by a generator of this seed among what its sites can make
/// by themselves, with the daemon beside main.
pub fn run_seeded_low(
    alloc: Global,
    q: &LowProgram,
    seed: u64,
    budget: u32,
) -> Result<SerialRun, Memory>
    requires { RunsWell (start_low q.now) q.now.at }
    ensures run { IfOk result (λ r. IsSerialRun (start_low q.now) budget r.events r.last r.end) }
    ensures ours { IfOk result (λ r. IsOurs q.now r.events) }
    ensures drawn { IfOk result (λ r. IsDrawn (start_low q.now) seed r.events) }
{
    let start = start_low(alloc, q)?;
    run_from(alloc, start, seed, budget)
}

/// Runs from a start.
fn run_from(alloc: Global, start: Cfg, seed: u64, budget: u32) -> Result<SerialRun, Memory>
    requires runs { (at : ℕ) × RunsWell start at }
    requires own { IsOwnStart start }
    ensures run { IfOk result (λ r. IsSerialRun start budget r.events r.last r.end) }
    ensures ours { IfOk result (λ r. IsOursFrom start r.events) }
    ensures drawn { IfOk result (λ r. IsDrawn start seed r.events) }
{
    let mut last = start;
    let mut events = List::new(alloc);
    match run_on(alloc, &mut last, &mut events, seed, budget) {
        Ok(end) => {
            let last = Boxed::of(alloc, last)?;
            Ok(SerialRun { events, last, end })
        }
        Err(memory) => {
            drop(last);
            drop(events);
            Err(memory)
        }
    }
}

/// Makes the events of a run, and notes them.
fn run_on(
    alloc: Global,
    last: &mut Cfg,
    events: &mut List<Event>,
    seed: u64,
    budget: u32,
) -> Result<End, Memory>
    requires runs { (at : ℕ) × RunsWell last.old at }
    requires own { IsOwnStart last.old }
    requires none { events.old ≡ [] }
    ensures run { IfOk result (λ end. IsSerialRun last.old budget events.new last.new end) }
    ensures ours { IfOk result (λ end. IsOursFrom last.old events.new) }
    ensures drawn { IfOk result (λ end. IsDrawn last.old seed events.new) }
{
    let mut waiting = first_waiting(alloc, last)?;
    let mut notes = Notes::new(alloc);
    let mut words = Pcg32::seed_from_u64(seed);
    for n in 0..budget {
        let draw = drawn(&mut words);
        let Some(choice) = waiting.chosen(&draw) else {
            return Ok(End::Rest);
        };
        serve(alloc, last, &mut waiting, &mut notes, events, choice)?;
    }
    Ok(end_of(last, &waiting))
}
