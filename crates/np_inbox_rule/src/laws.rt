ghost use Rattle.np_inbox_rule.specs.Laws.{RuleBegins, PutKeeps, PutLearns, TakeKeeps, TakeLearns, LookLearns, SiteForks, SenderForks};
ghost use Rattle.np_inbox_rule.specs.Laws.{SentForks, GotForks, SentMerges, GotMerges};

use site_links::Addressed;

/// The rule holds of a new inbox.
pub fn law_inbox_begins<I: Addressed>()
    ensures { RuleBegins I.sender }
{}

/// A sender that knows of a free place may push an item of its own, and does not find the queue full.
pub fn law_inbox_pushes<I: Addressed>()
    ensures keeps { PutKeeps I.sender }
    ensures learns { PutLearns I.sender }
{}

/// The owner may pop. The item is the next of what it was told of its sender; where nothing is there, all that it was told was taken.
pub fn law_inbox_pops<I: Addressed>()
    ensures keeps { TakeKeeps I.sender }
    ensures learns { TakeLearns I.sender }
{}

/// A look tells a sender that what it knows to have been taken begins what it pushed.
pub fn law_inbox_looks<I: Addressed>()
    ensures { LookLearns I.sender }
{}

/// The owner may count a site before it has made a sender, and may make a sender for each site; each may make a note of its list.
pub fn law_inbox_splits<I: Addressed>()
    ensures site { SiteForks I.sender }
    ensures sender { SenderForks I.sender }
    ensures sent { SentForks I.sender }
    ensures got { GotForks I.sender }
{}

/// The owner may join a sender's note, and a sender one of the owner's.
pub fn law_inbox_joins<I: Addressed>()
    ensures sent { SentMerges I.sender }
    ensures got { GotMerges I.sender }
{}
