//! What can happen next, and the numbers that choose it.

ghost use Rattle.std.specs.Prelude.{◌≡◌};
ghost use Rattle.rand_pcg.specs.Pcg.{pcg32};
ghost use Rattle.run_choices.specs.Draws.{drawn};

use np_syntax::Name;
use rand_core::utils::NextWord;
use rand_pcg::Pcg32;

/// What can happen next: an agent that is under way arrives, the packet of a mark lands, the atom of a mark acts alone, or an
/// input takes an output.
#[derive(Clone, Copy, PartialEq, Eq)]
pub enum Choice {
    Arrives(Name),
    Lands(Name),
    Acts(Name),
    Meets(Name, Name),
}

/// The numbers that choose: one of all entries, and where several wait on a channel, an input and an output. Each counts round
/// and round.
#[derive(Clone, Copy, PartialEq, Eq)]
pub struct Draw {
    pub entry: u32,
    pub input: u32,
    pub output: u32,
}

/// The next three words of a generator.
pub fn drawn(words: &mut Pcg32) -> Draw
    ensures { (result, words.new) ≡ drawn pcg32 words.old }
{
    let entry = words.next_word();
    let input = words.next_word();
    let output = words.next_word();
    Draw {
        entry,
        input,
        output,
    }
}
