ghost use Rattle.std.specs.Prelude.{◌≡◌};
ghost use Rattle.std.specs.Option.{option_copied};
ghost use Rattle.np_code.specs.Sizes.{capped, nodes, part_nodes, program_nodes};

use super::parts::parts;
use np_syntax::{LowProgram, Proc};

/// How many process nodes a process has.
#[cycle(sizes)]
#[tactic(auto, using(crate::proofs::NodeCounts::counts), unfolding(crate::specs::Sizes::capped))]
fn count(p: &Proc) -> u64
    ensures { result ≡ capped (nodes p.now) }
{
    let (first, second) = parts(p.form.get());
    let below = count_part(first).saturating_add(count_part(second));
    below.saturating_add(1)
}

/// The same of a part, where there is one.
#[cycle(sizes)]
#[tactic(auto, unfolding(crate::specs::Sizes::capped))]
fn count_part(part: Option<&Proc>) -> u64
    ensures { result ≡ capped (part_nodes (option_copied part.entry)) }
{
    match part {
        Some(p) => count(p),
        None => 0,
    }
}

/// How many process nodes main and the daemon have together.
#[tactic(auto, unfolding(crate::specs::Sizes::capped))]
pub fn count_both(p: &LowProgram) -> u64
    ensures { result ≡ capped (program_nodes p.now) }
{
    count(&p.main).saturating_add(count(&p.daemon))
}
