//! The topic of a refusal.

ghost use Rattle.std.specs.Prelude.{◌≡◌};
ghost use Rattle.refusal_topics.specs.Telling as spec;
ghost use Rattle.refusal_topics.specs.Telling.{IsTopicOf};

use super::topic::Topic;
use np_verdict::Refusal;

/// The topic of a refusal, by which np names it.
pub fn topic_of_refusal(refusal: Refusal) -> Topic
    ensures { IsTopicOf refusal result }
{
    topic_for(refusal)
}

fn topic_for(refusal: Refusal) -> Topic
    ensures { result ≡ spec.topic_for refusal }
{
    match refusal {
        Refusal::Memory => Topic::Memory,
        Refusal::Usage => Topic::Usage,
        Refusal::ReadFault => Topic::ReadFault,
        Refusal::TooLong | Refusal::HistoryTooLong => Topic::TooLong,
        Refusal::BadChar(_) => Topic::BadChar,
        Refusal::BadString(_) => Topic::BadString,
        Refusal::BigNumber(_) => Topic::BigNumber,
        Refusal::Syntax(_) => Topic::Syntax,
        Refusal::TooDeep(_) => Topic::TooDeep,
        Refusal::Unbound(_) => Topic::Unbound,
        Refusal::SiteTwice(_) => Topic::SiteTwice,
        Refusal::TooManySites(_) => Topic::TooManySites,
        Refusal::NotASite(_) => Topic::NotASite,
        Refusal::TypeFault(fault) => Topic::Broken(fault.rule),
        Refusal::LocationTest(_) => Topic::LocationTest,
        Refusal::TooManyNodes(_) => Topic::TooManyNodes,
        Refusal::TooManyEvents => Topic::TooManyEvents,
        Refusal::HistSyntax(_) => Topic::HistSyntax,
        Refusal::NotARun(_) => Topic::NotARun,
        Refusal::NoLine(_) => Topic::NoLine,
        Refusal::NotOurs(_) => Topic::NotOurs,
        Refusal::BudgetPast(_) => Topic::BudgetPast,
    }
}
