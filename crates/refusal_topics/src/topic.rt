//! What can be explained, with its name and number.

ghost use Rattle.std.specs.Prelude.{◌≡◌};
ghost use Rattle.refusal_topics.specs.Topics as spec;

use np_types::Rule;

/// What can be explained: a refusal, or a rule of typing that is broken.
#[derive(Clone, Copy)]
pub enum Topic {
    Memory,
    ReadFault,
    TooLong,
    WriteFault,
    BadChar,
    BadString,
    BigNumber,
    Syntax,
    TooDeep,
    Unbound,
    SiteTwice,
    TooManySites,
    NotASite,
    TypeFault,
    TooManyNodes,
    HistSyntax,
    NotARun,
    Usage,
    TooManyEvents,
    NoLine,
    LocationTest,
    NotOurs,
    BudgetPast,
    Broken(Rule),
}

/// Each topic once; a refusal stands before the rules that share its number.
pub const TOPICS: [Topic; 35] = [
    Topic::Memory,
    Topic::ReadFault,
    Topic::TooLong,
    Topic::WriteFault,
    Topic::BadChar,
    Topic::BadString,
    Topic::BigNumber,
    Topic::Syntax,
    Topic::TooDeep,
    Topic::Unbound,
    Topic::SiteTwice,
    Topic::TooManySites,
    Topic::NotASite,
    Topic::TypeFault,
    Topic::Broken(Rule::NotChannel),
    Topic::Broken(Rule::NoInput),
    Topic::Broken(Rule::NoOutput),
    Topic::Broken(Rule::Mismatch),
    Topic::Broken(Rule::NotAgent),
    Topic::Broken(Rule::NotSite),
    Topic::Broken(Rule::NotBool),
    Topic::Broken(Rule::NotInt),
    Topic::Broken(Rule::Shape),
    Topic::Broken(Rule::NotComparable),
    Topic::Broken(Rule::NotPrintable),
    Topic::Broken(Rule::Wide),
    Topic::TooManyNodes,
    Topic::HistSyntax,
    Topic::NotARun,
    Topic::Usage,
    Topic::TooManyEvents,
    Topic::NoLine,
    Topic::LocationTest,
    Topic::NotOurs,
    Topic::BudgetPast,
];

/// The word for a rule.
fn rule_word(rule: Rule) -> &'static [u8]
    ensures { result.now ≡ spec.rule_word rule }
{
    match rule {
        Rule::NotChannel => b"NotChannel",
        Rule::NoInput => b"NoInput",
        Rule::NoOutput => b"NoOutput",
        Rule::Mismatch => b"Mismatch",
        Rule::NotAgent => b"NotAgent",
        Rule::NotSite => b"NotSite",
        Rule::NotBool => b"NotBool",
        Rule::NotInt => b"NotInt",
        Rule::Shape => b"Shape",
        Rule::NotComparable => b"NotComparable",
        Rule::NotPrintable => b"NotPrintable",
        Rule::Wide => b"Wide",
    }
}

/// The word for a topic.
pub fn topic_word(topic: Topic) -> &'static [u8]
    ensures { result.now ≡ spec.topic_word topic }
{
    match topic {
        Topic::Memory => b"Memory",
        Topic::ReadFault => b"ReadFault",
        Topic::TooLong => b"TooLong",
        Topic::WriteFault => b"WriteFault",
        Topic::BadChar => b"BadChar",
        Topic::BadString => b"BadString",
        Topic::BigNumber => b"BigNumber",
        Topic::Syntax => b"Syntax",
        Topic::TooDeep => b"TooDeep",
        Topic::Unbound => b"Unbound",
        Topic::SiteTwice => b"SiteTwice",
        Topic::TooManySites => b"TooManySites",
        Topic::NotASite => b"NotASite",
        Topic::TypeFault => b"TypeFault",
        Topic::TooManyNodes => b"TooManyNodes",
        Topic::HistSyntax => b"HistSyntax",
        Topic::NotARun => b"NotARun",
        Topic::Usage => b"Usage",
        Topic::TooManyEvents => b"TooManyEvents",
        Topic::NoLine => b"NoLine",
        Topic::LocationTest => b"LocationTest",
        Topic::NotOurs => b"NotOurs",
        Topic::BudgetPast => b"BudgetPast",
        Topic::Broken(rule) => rule_word(rule),
    }
}

/// The number of a topic, as it is written; behind that of a rule stands the refusal's word.
pub fn topic_number(topic: Topic) -> &'static [u8]
    ensures { result.now ≡ spec.topic_number topic }
{
    match topic {
        Topic::Memory => b"1",
        Topic::ReadFault => b"4",
        Topic::TooLong => b"5",
        Topic::WriteFault => b"6",
        Topic::BadChar => b"7",
        Topic::BadString => b"8",
        Topic::BigNumber => b"9",
        Topic::Syntax => b"10",
        Topic::TooDeep => b"11",
        Topic::Unbound => b"12",
        Topic::SiteTwice => b"13",
        Topic::TooManySites => b"14",
        Topic::NotASite => b"15",
        Topic::TypeFault => b"16",
        Topic::TooManyNodes => b"18",
        Topic::HistSyntax => b"20",
        Topic::NotARun => b"21",
        Topic::Usage => b"22",
        Topic::TooManyEvents => b"23",
        Topic::NoLine => b"24",
        Topic::LocationTest => b"25",
        Topic::NotOurs => b"26",
        Topic::BudgetPast => b"27",
        Topic::Broken(_) => b"16 TypeFault",
    }
}

/// The first topic that has this word, or this number.
pub fn topic_of(word: &[u8]) -> Option<Topic>
    ensures { result ≡ spec.topic_of word.now }
{
    TOPICS.iter().copied().find(|topic| topic_word(*topic) == word || topic_number(*topic) == word)
}
