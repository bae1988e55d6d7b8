//! Following events, one after another.

ghost use Rattle.std.specs.Prelude.{◌≡◌, ◌≢◌, ◌<◌, ◌^◌, length, None, Some, IfOk, IfErr, OnOk};
ghost use Rattle.np_calculus.specs.Reductions.{run};
ghost use Rattle.np_calculus.specs.Starts.{start_low};
ghost use Rattle.np_serial.specs.declared.fail.ReplayFail.TheVariants as fail;
ghost use Rattle.np_serial.specs.Replays.{IsRefusal};

use super::fail::ReplayFail;
use np_configuration::{ApplyFail, Cfg, apply, start_low};
use np_syntax::{Event, LowProgram, Memory};
use std::alloc::Global;

/// Makes the events one after another. Where that is refused, it leaves the configuration behind those that were made.
fn follow_on(alloc: Global, reached: &mut Cfg, events: &[Event]) -> Result<(), ReplayFail>
    requires { length events.now < 2 ^ 32 }
    ensures reached { OnOk result (run reached.old events.now ≡ Some reached.new) }
    ensures refused { IfErr result (λ e. IsRefusal reached.old events.now e) }
    ensures none { IfErr result (λ e. e ≢ fail.Memory → run reached.old events.now ≡ None) }
{
    let mut index = 0;
    for event in events {
        match apply(alloc, reached, event) {
            Ok(()) => index += 1,
            Err(ApplyFail::NotEnabled) => return Err(ReplayFail::NotARun(index)),
            Err(ApplyFail::Memory) => return Err(ReplayFail::Memory),
        }
    }
    Ok(())
}

/// The configuration after all the events, made one after another from this one on.
pub fn follow(alloc: Global, start: Cfg, events: &[Event]) -> Result<Cfg, ReplayFail>
    requires { length events.now < 2 ^ 32 }
    ensures reached { IfOk result (λ last. run start events.now ≡ Some last) }
    ensures refused { IfErr result (λ e. IsRefusal start events.now e) }
    ensures none { IfErr result (λ e. e ≢ fail.Memory → run start events.now ≡ None) }
{
    let mut reached = start;
    match follow_on(alloc, &mut reached, events) {
        Ok(()) => Ok(reached),
        Err(fail) => {
            drop(reached);
            Err(fail)
        }
    }
}

/// The configuration after all the events, made one after another from the start of the low program on.
pub fn replay(alloc: Global, low: &LowProgram, events: &[Event]) -> Result<Cfg, ReplayFail>
    requires sites { length low.now.sites < 2 ^ 32 }
    requires events { length events.now < 2 ^ 32 }
    ensures reached { IfOk result (λ last. run (start_low low.now) events.now ≡ Some last) }
    ensures refused { IfErr result (λ e. IsRefusal (start_low low.now) events.now e) }
    ensures none { IfErr result (λ e. e ≢ fail.Memory → run (start_low low.now) events.now ≡ None) }
{
    match start_low(alloc, low) {
        Ok(start) => follow(alloc, start, events),
        Err(Memory) => Err(ReplayFail::Memory),
    }
}
