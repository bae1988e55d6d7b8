//! The low program of a source.

ghost use Rattle.std.specs.Prelude.{◌≡◌, ◌≢◌, ◌≤◌, length, IfOk, IfErr};
ghost use Rattle.np_syntax.specs.declared.limits.TheConstants.{MOST_SITES};
ghost use Rattle.np_calculus.specs.Runs.{RunsWell};
ghost use Rattle.np_calculus.specs.Starts.{start_low};
ghost use Rattle.np_check.specs.Faults.{IsAccepted};
ghost use Rattle.np_code.specs.Programs.{program};
ghost use Rattle.np_code.specs.Sizes.{program_nodes};
ghost use Rattle.np_code.specs.declared.limits.TheConstants.{MOST_CODE_NODES};
ghost use Rattle.np_verdict.specs.Faults.{IsWellTyped};
ghost use Rattle.np_on_sites.specs.ByInfrastructure.{low_by};
ghost use Rattle.np_sources.specs.Reaches.{Reach, FaultyTo, HasManyNodes, IsCompiled, IsLowOf};

use cache_encode::{encode_cached, law_cached_runs_well};
use daemon_encode::{encode, law_low_runs_well};
use np_check::Checked;
use np_code::{Code, CodeFail, flatten};
use np_syntax::{LONGEST_SOURCE, LowProgram, Memory};
use np_verdict::{Refusal, checked_source};
use np_words::Infrastructure;
use std::alloc::Global;

/// A low program, and the table of its process nodes.
#[derive(Drop)]
pub(crate) struct Lowered {
    pub low: LowProgram,
    pub code: Code,
}

/// A checked source with its low program.
#[derive(Drop)]
pub struct Compiled {
    pub checked: Checked,
    pub low: LowProgram,
}

/// A source with its low program, or the first refusal of a mode that runs it from there.
pub fn compiled_of(
    alloc: Global,
    infrastructure: Infrastructure,
    bytes: &[u8],
) -> Result<Compiled, Refusal>
    requires { length bytes.now ≤ LONGEST_SOURCE }
    ensures found { IfOk result (λ made. IsWellTyped bytes.now made.checked) }
    ensures compiled { IfOk result (λ made. IsCompiled infrastructure made.checked made.low) }
    ensures runs { IfOk result (λ made. RunsWell (start_low made.low) made.low.at) }
    ensures refused { IfErr result (λ refusal. refusal ≢ Refusal.Memory → FaultyTo (Reach.low infrastructure) bytes.now refusal) }
{
    let checked = checked_source(alloc, bytes)?;
    match low_alone(alloc, infrastructure, &checked) {
        Ok(low) => Ok(Compiled { checked, low }),
        Err(refusal) => {
            drop(checked);
            Err(refusal)
        }
    }
}

/// The low program of a source, or the first refusal of a mode that translates it.
pub fn low_of(
    alloc: Global,
    infrastructure: Infrastructure,
    bytes: &[u8],
) -> Result<LowProgram, Refusal>
    requires { length bytes.now ≤ LONGEST_SOURCE }
    ensures made { IfOk result (IsLowOf infrastructure bytes.now) }
    ensures runs { IfOk result (λ low. RunsWell (start_low low) low.at) }
    ensures refused { IfErr result (λ refusal. refusal ≢ Refusal.Memory → FaultyTo (Reach.low infrastructure) bytes.now refusal) }
{
    let checked = checked_source(alloc, bytes)?;
    let made = low_alone(alloc, infrastructure, &checked);
    drop(checked);
    made
}

/// The low program of a checked program, where its nodes are not too many.
fn low_alone(
    alloc: Global,
    infrastructure: Infrastructure,
    checked: &Checked,
) -> Result<LowProgram, Refusal>
    ensures made { IfOk result (IsCompiled infrastructure checked.now) }
    ensures runs { IfOk result (λ low. RunsWell (start_low low) low.at) }
    ensures refused { IfErr result (λ refusal. refusal ≢ Refusal.Memory → HasManyNodes (low_by infrastructure checked.now) refusal) }
{
    let Lowered { low, code } = low_with_code(alloc, infrastructure, checked)?;
    drop(code);
    Ok(low)
}

/// The low program of a checked program with its table, where its nodes are not too many.
pub(crate) fn low_with_code(
    alloc: Global,
    infrastructure: Infrastructure,
    checked: &Checked,
) -> Result<Lowered, Refusal>
    ensures made { IfOk result (λ made. IsCompiled infrastructure checked.now made.low) }
    ensures code { IfOk result (λ made. program made.code ≡ made.low) }
    ensures runs { IfOk result (λ made. RunsWell (start_low made.low) made.low.at) }
    ensures refused { IfErr result (λ refusal. refusal ≢ Refusal.Memory → HasManyNodes (low_by infrastructure checked.now) refusal) }
{
    match translated(alloc, infrastructure, checked) {
        Ok(low) => coded(alloc, low),
        Err(Memory) => Err(Refusal::Memory),
    }
}

/// The low program of a checked program.
fn translated(
    alloc: Global,
    infrastructure: Infrastructure,
    checked: &Checked,
) -> Result<LowProgram, Memory>
    ensures gives { IfOk result (λ low. low ≡ low_by infrastructure checked.now) }
    ensures accepted { IsAccepted checked.now }
    ensures runs { IfOk result (λ low. RunsWell (start_low low) low.at) }
{
    law_low_runs_well();
    law_cached_runs_well();
    let _ = checked.program();
    match infrastructure {
        Infrastructure::Central => encode(alloc, checked),
        Infrastructure::Cache => encode_cached(alloc, checked),
    }
}

/// The low program itself with its table, where it has one.
fn coded(alloc: Global, low: LowProgram) -> Result<Lowered, Refusal>
    requires { length low.sites ≤ MOST_SITES }
    ensures same { IfOk result (λ made. made.low ≡ low) }
    ensures code { IfOk result (λ made. program made.code ≡ made.low) }
    ensures few { IfOk result (λ made. program_nodes made.low ≤ MOST_CODE_NODES) }
    ensures refused { IfErr result (λ refusal. refusal ≢ Refusal.Memory → HasManyNodes low refusal) }
{
    let made = code_of(alloc, &low);
    match made {
        Ok(code) => Ok(Lowered { low, code }),
        Err(refusal) => Err(refusal),
    }
}

/// The table of a low program, or the refusal where its nodes are too many.
pub(crate) fn code_of(alloc: Global, low: &LowProgram) -> Result<Code, Refusal>
    requires { length low.now.sites ≤ MOST_SITES }
    ensures code { IfOk result (λ code. program code ≡ low.now) }
    ensures few { IfOk result (λ _. program_nodes low.now ≤ MOST_CODE_NODES) }
    ensures refused { IfErr result (λ refusal. refusal ≢ Refusal.Memory → HasManyNodes low.now refusal) }
{
    match flatten(alloc, low) {
        Ok(code) => Ok(code),
        Err(CodeFail::TooManyNodes(nodes)) => Err(Refusal::TooManyNodes(nodes)),
        Err(CodeFail::Memory) => Err(Refusal::Memory),
    }
}
