//! The lines of the generated source.

ghost use Rattle.std.specs.Prelude.{◌≡◌, ◌≤◌, ◌++◌, OnOk, IfOk, decimal, map};
ghost use Rattle.std.specs.List.{range_with_len};
ghost use Rattle.np_generate.specs.Generated as spec;

use itoa::Buffer;
use np_syntax::{List, Memory, Text};
use std::alloc::Global;

/// How many agents a generated source may have.
pub const MOST_AGENTS: u32 = 100;

/// How many sites a generated source has: its agents stand at them in turn.
const RING_SITES: u32 = 4;

/// How often the token goes round the ring.
const ROUNDS: u32 = 10;

fn put_words(text: &mut Text, words: &[u8]) -> Result<(), Memory>
    ensures { OnOk result (text.new ≡ text.old ++ words.now) }
{
    text.append(words)
}

fn put_number(text: &mut Text, number: u32) -> Result<(), Memory>
    ensures { OnOk result (text.new ≡ text.old ++ decimal number) }
{
    text.append(Buffer::new().format(number).as_bytes())
}

fn put_name(text: &mut Text, agent: u32) -> Result<(), Memory>
    ensures { OnOk result (text.new ≡ text.old ++ spec.name agent) }
{
    put_words(text, b"a")?;
    put_number(text, agent)
}

/// The agent to which this one hands the token.
fn put_next(text: &mut Text, agent: u32) -> Result<(), Memory>
    requires { 1 ≤ agent }
    ensures { OnOk result (text.new ≡ text.old ++ spec.next agent) }
{
    if agent == 1 {
        put_words(text, b"main")
    } else {
        put_name(text, agent - 1)
    }
}

fn put_agent(text: &mut Text, agent: u32) -> Result<(), Memory>
    requires { 1 ≤ agent }
    ensures { OnOk result (text.new ≡ text.old ++ spec.agent_line agent) }
{
    put_words(text, b"agent ")?;
    put_name(text, agent)?;
    put_words(text, b" = *go?k -> migrate to s")?;
    put_number(text, agent % RING_SITES)?;
    put_words(text, b" -> (<")?;
    put_next(text, agent)?;
    put_words(text, b"@?>go!k + 1 | <main@?>tick!k) in")
}

#[tactic(auto, using(crate::proofs::Lines::one_more))]
fn put_agents(text: &mut Text, agents: u32) -> Result<(), Memory>
    requires { agents ≤ MOST_AGENTS }
    ensures { OnOk result (text.new ≡ text.old ++ spec.text_of (map spec.agent_line (range_with_len 1 agents))) }
{
    for agent in 1..agents + 1 {
        put_agent(text, agent)?;
        put_words(text, b"\n")?;
    }
    Ok(())
}

fn put_last(text: &mut Text, agents: u32) -> Result<(), Memory>
    requires { agents ≤ MOST_AGENTS }
    ensures { OnOk result (text.new ≡ text.old ++ spec.last_line agents) }
{
    put_words(text, b"(*tick?k -> print k | *go?k -> if k < ")?;
    put_number(text, ROUNDS * agents)?;
    put_words(text, b" then <")?;
    put_name(text, agents)?;
    put_words(text, b"@?>go!k else 0 | go!0)")
}

#[tactic(auto, unfolding(crate::specs::Generated::head))]
fn put_head(text: &mut Text) -> Result<(), Memory>
    ensures { OnOk result (text.new ≡ text.old ++ spec.text_of spec.head) }
{
    put_words(
        text,
        b"sites s0 s1 s2 s3 ;\nmain at s0 = new go : ^Int in new tick : ^Int in\n",
    )
}

/// The generated source of a ring of so many agents.
#[tactic(auto, using(crate::proofs::Lines::whole))]
pub fn generated(alloc: Global, agents: u32) -> Result<Text, Memory>
    requires some { 1 ≤ agents }
    requires within { agents ≤ MOST_AGENTS }
    ensures { IfOk result (λ text. text ≡ spec.generated agents) }
{
    let mut text = List::new(alloc);
    put_head(&mut text)?;
    put_agents(&mut text, agents)?;
    put_last(&mut text, agents)?;
    put_words(&mut text, b"\n")?;
    Ok(text)
}
