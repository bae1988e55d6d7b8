//! How kinds of tokens are told.

use np_lex::{Key, Sign};
use np_syntax::{List, Memory, Text};
use source_forms::{Kind, kind_text};
use std::alloc::Global;

/// Kinds of tokens that words stand for, where all of them are there.
struct Group {
    words: &'static [u8],
    kinds: &'static [Kind],
}

const PROCESS: [Kind; 12] = [
    Kind::Zero,
    Kind::Sign(Sign::RoundOpen),
    Kind::Word(Key::New),
    Kind::Name,
    Kind::Sign(Sign::Star),
    Kind::Word(Key::AgentWord),
    Kind::Word(Key::Migrate),
    Kind::Word(Key::IfLocal),
    Kind::Sign(Sign::Less),
    Kind::Word(Key::If),
    Kind::Word(Key::Let),
    Kind::Word(Key::Print),
];

const VALUE: [Kind; 9] = [
    Kind::Zero,
    Kind::Number,
    Kind::Str,
    Kind::Word(Key::True),
    Kind::Word(Key::False),
    Kind::Word(Key::Main),
    Kind::Name,
    Kind::Sign(Sign::RoundOpen),
    Kind::Sign(Sign::SquareOpen),
];

const TYPE: [Kind; 9] = [
    Kind::Word(Key::IntType),
    Kind::Word(Key::BoolType),
    Kind::Word(Key::StringType),
    Kind::Word(Key::SiteType),
    Kind::Word(Key::AgentType),
    Kind::Sign(Sign::Caret),
    Kind::Sign(Sign::Query),
    Kind::Sign(Sign::Bang),
    Kind::Sign(Sign::SquareOpen),
];

const PATTERN: [Kind; 3] = [
    Kind::Sign(Sign::Underscore),
    Kind::Name,
    Kind::Sign(Sign::SquareOpen),
];

const CHANNEL_TYPE: [Kind; 3] = [
    Kind::Sign(Sign::Caret),
    Kind::Sign(Sign::Query),
    Kind::Sign(Sign::Bang),
];

const OPERATOR: [Kind; 5] = [
    Kind::Sign(Sign::Star),
    Kind::Sign(Sign::Plus),
    Kind::Sign(Sign::Minus),
    Kind::Sign(Sign::Same),
    Kind::Sign(Sign::Less),
];

const ARITHMETIC: [Kind; 3] = [
    Kind::Sign(Sign::Star),
    Kind::Sign(Sign::Plus),
    Kind::Sign(Sign::Minus),
];

/// The groups in the order in which they are told.
const GROUPS: [Group; 7] = [
    Group {
        words: b"a process",
        kinds: &PROCESS,
    },
    Group {
        words: b"a value",
        kinds: &VALUE,
    },
    Group {
        words: b"a type",
        kinds: &TYPE,
    },
    Group {
        words: b"a pattern",
        kinds: &PATTERN,
    },
    Group {
        words: b"a channel type",
        kinds: &CHANNEL_TYPE,
    },
    Group {
        words: b"an operator",
        kinds: &OPERATOR,
    },
    Group {
        words: b"an operator",
        kinds: &ARITHMETIC,
    },
];

/// Whether all kinds of a group are there.
fn has_all(kinds: &[Kind], group: &[Kind]) -> bool {
    group.iter().all(|kind| kinds.contains(kind))
}

/// The kinds without those of a group.
fn without(alloc: Global, kinds: &[Kind], group: &[Kind]) -> Result<List<Kind>, Memory> {
    let mut left = List::new(alloc);
    for kind in kinds {
        if !group.contains(kind) {
            left.add(*kind)?;
        }
    }
    Ok(left)
}

/// How a kind is told by itself.
fn put_kind(text: &mut Text, kind: Kind) -> Result<(), Memory> {
    match kind {
        Kind::Zero => text.append(b"the number 0"),
        Kind::Number => text.append(b"a number"),
        Kind::Str => text.append(b"a string"),
        Kind::Name => text.append(b"a name"),
        Kind::End => text.append(b"the end of the source"),
        Kind::Word(_) | Kind::Sign(_) => {
            text.append(b"`")?;
            text.append(kind_text(kind))?;
            text.append(b"`")
        }
    }
}

/// Puts what parts a phrase from the one before it, where so many are still to come.
fn put_comma(text: &mut Text, left: usize) -> Result<(), Memory> {
    if text.len() == 0 {
        return Ok(());
    }
    if left <= 1 {
        text.append(b" or ")
    } else {
        text.append(b", ")
    }
}

/// How many words stand for groups of kinds.
fn groups_in(alloc: Global, kinds: &[Kind]) -> Result<usize, Memory> {
    let mut left = List::from_slice(alloc, kinds)?;
    let mut count: usize = 0;
    for group in GROUPS.iter() {
        if has_all(left.as_slice(), group.kinds) {
            count = count.saturating_add(1);
            left = without(alloc, left.as_slice(), group.kinds)?;
        }
    }
    Ok(count.saturating_add(left.len()))
}

/// Kinds of tokens, told with commas and `or` between them.
pub fn phrase_of(alloc: Global, kinds: &[Kind]) -> Result<Text, Memory> {
    let mut count = groups_in(alloc, kinds)?;
    let mut left = List::from_slice(alloc, kinds)?;
    let mut text = List::new(alloc);
    for group in GROUPS.iter() {
        if has_all(left.as_slice(), group.kinds) {
            put_comma(&mut text, count)?;
            text.append(group.words)?;
            count = count.saturating_sub(1);
            left = without(alloc, left.as_slice(), group.kinds)?;
        }
    }
    for kind in left.as_slice() {
        put_comma(&mut text, count)?;
        put_kind(&mut text, *kind)?;
        count = count.saturating_sub(1);
    }
    Ok(text)
}
