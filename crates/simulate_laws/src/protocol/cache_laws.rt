ghost use Rattle.simulate_laws.specs.protocol.CacheLaws.{GivesHints, KeepsRule, NobodyWaits, StartsByRule};

/// Each step keeps the rule.
pub fn law_cache_rule_kept()
    ensures { KeepsRule }
{}

/// The rule holds of the start, where there is main alone, with an empty cache.
pub fn law_cache_rule_starts()
    ensures { StartsByRule }
{}

/// What the rule gives: each agent has a cache, and each hint that is in a cache, or that somebody waits for, is there. The lock of a
/// hint is no name of the high level.
pub fn law_cache_rule_gives()
    ensures { GivesHints }
{}

/// At rest nobody waits for a hint: who does stands beside it, and goes on.
pub fn law_cache_rule_rests()
    ensures { NobodyWaits }
{}
