ghost use Rattle.cache_encode.specs.Examples.{LowTextOfSeven, TextOfCreation, TextOfPost};
ghost use Rattle.cache_encode.specs.Related.{CachedEncodesItself, CachedTranslatesItself};
ghost use Rattle.cache_encode.specs.Typed.{CachedFaultless, CachedRunsWell, CachedSound, CachedWellTyped};

/// What the translation makes is a low process of what it is made from, and so is a low program, where agents have caches.
pub fn law_cached_translates()
    ensures process { CachedTranslatesItself }
    ensures program { CachedEncodesItself }
{}

/// The low program of an accepted program, whose agents have caches, has no fault under the types of the infrastructure's
/// channels, and its uses, sites, values and types are as a low program has them. So it is typed after each prefix of each of
/// its runs, and no value of a wrong type is ever met.
pub fn law_cached_typed()
    ensures faultless { CachedFaultless }
    ensures sound { CachedSound }
    ensures along { CachedWellTyped }
{}

/// The low program of an accepted program, whose agents have caches, runs well: its low start meets the condition of the
/// serial run.
pub fn law_cached_runs_well()
    ensures { CachedRunsWell }
{}

/// What the definitions say of a small program, of a post and of a creation.
pub fn law_cached_examples()
    ensures program { LowTextOfSeven }
    ensures post { TextOfPost }
    ensures creation { TextOfCreation }
{}
