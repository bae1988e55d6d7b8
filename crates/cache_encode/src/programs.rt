//! The low program of a checked program.

ghost use Rattle.std.specs.Prelude.{◌≡◌, ◌<◌, ◌+◌, ◌^◌, length, IfOk};
ghost use Rattle.np_safety.specs.Low.{IsFaultless};
ghost use Rattle.daemon_encode.specs.LowSound.{IsLowSound};
ghost use Rattle.cache_encode.specs.Encoded.{encoded_cached, main_of};

use super::translator::translate;
use daemon_encode::Translator;
use np_calculus::MAIN;
use np_check::Checked;
use np_syntax::{LowProgram, Memory, Proc, Program, copy_texts};
use std::alloc::Global;
use text_filling::{Writer, cached_daemon, cached_main_text};

/// Main's process in the low program, and the number of the next binder.
fn main_of(alloc: Global, sites: u32, p: &Program) -> Result<(Proc, u32), Memory>
    requires { (main_of sites p.now).1 < 2 ^ 32 }
    ensures { IfOk result (λ r. main_of sites p.now ≡ (r.0, r.1)) }
{
    let writer = Writer {
        alloc,
        sites,
        node: 0,
    };
    let forms = Translator { alloc, sites };
    let body = translate(forms, &p.main, &writer.agent(MAIN)?, p.binders)?;
    let first = body.next;
    let main = cached_main_text(writer, p.at, first, body.proc)?;
    Ok((main, first + 7))
}

/// The low program of a program.
fn low_program(alloc: Global, p: &Program) -> Result<LowProgram, Memory>
    requires sites { length p.now.sites < 2 ^ 32 }
    requires numbers { (main_of (length p.now.sites) p.now).1 + 27 < 2 ^ 32 }
    ensures { IfOk result (λ low. low ≡ encoded_cached p.now) }
{
    let count = p.sites.len() as u32;
    let (main, next) = main_of(alloc, count, p)?;
    let daemon = cached_daemon(alloc, count, p.at, next)?;
    let sites = copy_texts(alloc, p.sites.as_slice())?;
    Ok(LowProgram {
        sites,
        at: p.at,
        main,
        daemon,
    })
}

/// The low program of a checked program, whose agents have caches. Neither main nor the daemon has a fault, and what stands
/// in them is as a low program has it.
pub fn encode_cached(alloc: Global, p: &Checked) -> Result<LowProgram, Memory>
    ensures gives { IfOk result (λ low. low ≡ encoded_cached p.now) }
    ensures faultless { IfOk result IsFaultless }
    ensures sound { IfOk result IsLowSound }
{
    low_program(alloc, p.program())
}
