ghost use Rattle.std.specs.Prelude.{◌≡◌, IfOk};

use np_syntax::{Event, List, Memory, Name, Text, Value};
use std::alloc::Global;

/// What is sent: its channel and its value.
#[derive(Drop)]
pub struct Message {
    pub chan: Name,
    pub value: Value,
}

/// An event of a run, with what the run tells of it.
#[derive(Drop)]
pub struct Step {
    pub event: Event,
    /// Of a Land the agent to which the packet goes, of an Arrive the agent that arrives, else the agent of the acting atom.
    pub agent: Name,
    /// Whether that agent is at the site of the event before it.
    pub here: bool,
    /// To whom goes what the event sends: of a Post or a Send, and of a location test that finds its agent.
    pub target: Option<Name>,
    /// What the event sends, or what comes by it or is taken. What the infrastructure takes is not told.
    pub message: Option<Message>,
}

impl Message {
    fn copy(&self, alloc: Global) -> Result<Message, Memory>
        ensures { IfOk result (λ copied. copied ≡ self.now) }
    {
        let value = self.value.copy(alloc)?;
        Ok(Message {
            chan: self.chan,
            value,
        })
    }
}

/// A copy of a message, if there is one.
fn copy_message(alloc: Global, message: &Option<Message>) -> Result<Option<Message>, Memory>
    ensures { IfOk result (λ copied. copied ≡ message.now) }
{
    match message {
        Some(message) => Ok(Some(message.copy(alloc)?)),
        None => Ok(None),
    }
}

impl Step {
    pub fn copy(&self, alloc: Global) -> Result<Step, Memory>
        ensures { IfOk result (λ copied. copied ≡ self.now) }
    {
        let message = copy_message(alloc, &self.message)?;
        Ok(Step {
            event: self.event,
            agent: self.agent,
            here: self.here,
            target: self.target,
            message,
        })
    }
}

/// A run, or a part of it: its steps, and the texts of the values that they print, both in order. Of a part there are also the
/// numbers of its steps in the run, and the events of the run that make agents and channels.
#[derive(Drop)]
pub struct Followed {
    pub steps: List<Step>,
    pub printed: List<Text>,
    pub numbers: List<u32>,
    pub makers: List<Event>,
    /// Which of the steps are pale, where some are.
    pub pale: List<bool>,
}
