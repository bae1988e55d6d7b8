ghost use Rattle.daemon_encode.specs.Examples.{LowTextOfSeven};
ghost use Rattle.daemon_encode.specs.Translates.{TranslatesItself, EncodesItself};
ghost use Rattle.daemon_encode.specs.Typed.{EncodesFaultless, EncodesRunsWell, EncodesSound, EncodesWellTyped};

/// What the translation makes is a low process of what it is made from, and so is a low program.
pub fn law_translates()
    ensures process { TranslatesItself }
    ensures program { EncodesItself }
{}

/// The low program of an accepted program has no fault under the types of the infrastructure's channels, and its uses,
/// sites, values and types are as a low program has them. So it is typed after each prefix of each of its runs, and no
/// value of a wrong type is ever met.
pub fn law_encodes_typed()
    ensures faultless { EncodesFaultless }
    ensures sound { EncodesSound }
    ensures along { EncodesWellTyped }
{}

/// The low start of an accepted program can run: it meets the condition of the serial run.
pub fn law_low_runs_well()
    ensures { EncodesRunsWell }
{}

/// What the definitions say of a small program.
pub fn law_examples()
    ensures { LowTextOfSeven }
{}
