ghost use Rattle.simulate_laws.specs.simulation.PostLaws.{CachedLettersHaveOnePlace, LettersHaveOnePlace, CachedLettersInPlace};
ghost use Rattle.simulate_laws.specs.simulation.PostLaws.{CachedLettersStandAbove, CachedPostsArePaired, CachedRestsAbove};
ghost use Rattle.simulate_laws.specs.simulation.PostLaws.{CachedRestsAllHanded, LettersInPlace, LettersStandAbove, PostsArePaired};
ghost use Rattle.simulate_laws.specs.simulation.PostLaws.{RestsAbove, RestsAllHanded};

/// In each run from the low start of an accepted program posts and openings take turns under each mark, a post first. Each
/// opening hands over the post before it: the output of its letter stands in its agent then. With caches a post is sent to the
/// daemon, or a messenger is made for it, and a messenger that finds the agent hands over too; each counts for the mark for which its
/// own stands.
pub fn law_posts_are_paired()
    ensures central { PostsArePaired }
    ensures cached { CachedPostsArePaired }
{}

/// After each run from the low start of an accepted program a letter that was posted and not opened yet is carried by one
/// thing, which is under the mark of its post; and no thing carries any other letter. The thing has the letter's agent,
/// channel and value. By the low level alone: under that mark is one packet, or one atom of the daemon, of the letter's agent or of a
/// messenger, and the letter is in its value, its process or its environment. Where the lifted run leads to, the output of such a
/// letter stands in its agent already. With caches the thing is under a mark that stands for that of the post, and under others that
/// do there is at most `0`.
pub fn law_one_place()
    ensures place { LettersInPlace }
    ensures held { LettersHaveOnePlace }
    ensures above { LettersStandAbove }
    ensures cached_place { CachedLettersInPlace }
    ensures cached_held { CachedLettersHaveOnePlace }
    ensures cached_above { CachedLettersStandAbove }
{}

/// Where a run from the low start of an accepted program has come to rest, each of its posts was handed over, once. The lifted
/// run has come to rest at the high level then. No agent has an affair, the daemon's lock is free, and no letter is under way. With
/// caches these and the hints are free too.
pub fn law_all_handed()
    ensures handed { RestsAllHanded }
    ensures above { RestsAbove }
    ensures cached { CachedRestsAllHanded }
    ensures cached_above { CachedRestsAbove }
{}
