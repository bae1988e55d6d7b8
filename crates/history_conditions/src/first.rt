//! The first condition that an event fails.

ghost use Rattle.std.specs.Prelude.{◌≡◌, IfOk};
ghost use Rattle.history_conditions.specs.Born.{IsReached};
ghost use Rattle.history_conditions.specs.Conditions.{first_failing, first_unmet, holds};

use super::actors::{actor_stands, has_node, has_role, is_at_its_site, is_of_kind};
use super::condition::{CONDITIONS, Condition};
use super::made::{is_new, made_names, makes_at, names_differ};
use super::operands::operands_fit;
use super::outputs::{is_in_agent, is_on_channel, is_output, names_output, output_stands};
use np_configuration::Cfg;
use np_syntax::{Event, Memory};
use std::alloc::Global;

/// Where an event is looked at: the events before it, and the configuration to which they lead from the start of a low program.
#[derive(Clone, Copy)]
pub struct Moment<'a> {
    pub alloc: Global,
    pub before: &'a [Event],
    pub reached: &'a Cfg,
}

/// Whether a condition of an event holds.
fn holds(moment: Moment<'_>, event: &Event, condition: Condition) -> Result<bool, Memory>
    requires { IsReached moment.before.now moment.reached.now }
    ensures { IfOk result (λ met. met ≡ holds moment.entry.reached.now event.now condition) }
{
    let Moment {
        alloc,
        before,
        reached,
    } = moment;
    let (first, second) = made_names(event.made);
    match condition {
        Condition::ActorStands => Ok(actor_stands(reached, event)),
        Condition::IsAtSite => Ok(is_at_its_site(reached, event)),
        Condition::IsOfKind => Ok(is_of_kind(reached, event)),
        Condition::HasNode => Ok(has_node(reached, event)),
        Condition::HasRole => Ok(has_role(reached, event)),
        Condition::NamesOutput => Ok(names_output(event)),
        Condition::MakesFirst => makes_at(alloc, reached, event, 0, first),
        Condition::MakesSecond => makes_at(alloc, reached, event, 1, second),
        Condition::FirstIsNew => Ok(is_new(before, reached, first)),
        Condition::SecondIsNew => Ok(is_new(before, reached, second)),
        Condition::NamesDiffer => Ok(names_differ(event.made)),
        Condition::OutputStands => Ok(output_stands(reached, event)),
        Condition::IsOutput => Ok(is_output(reached, event)),
        Condition::IsInAgent => Ok(is_in_agent(reached, event)),
        Condition::IsOnChannel => Ok(is_on_channel(reached, event)),
        Condition::OperandsFit => operands_fit(alloc, reached, event),
    }
}

/// The first of several conditions of an event that does not hold, if there is one.
fn first_failing(
    moment: Moment<'_>,
    event: &Event,
    conditions: &[Condition],
) -> Result<Option<Condition>, Memory>
    requires { IsReached moment.before.now moment.reached.now }
    ensures { IfOk result (λ found. found ≡ first_failing (holds moment.entry.reached.now event.now) conditions.now) }
{
    for condition in conditions {
        if !holds(moment, event, *condition)? {
            return Ok(Some(*condition));
        }
    }
    Ok(None)
}

/// The first condition of an event that does not hold, if there is one.
pub fn unmet(moment: Moment<'_>, event: &Event) -> Result<Option<Condition>, Memory>
    requires { IsReached moment.before.now moment.reached.now }
    ensures { IfOk result (λ found. found ≡ first_unmet moment.entry.reached.now event.now) }
{
    first_failing(moment, event, &CONDITIONS)
}
