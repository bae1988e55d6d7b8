ghost use Rattle.std.specs.Prelude.{◌≡◌};
ghost use Rattle.np_example_files.specs.Examples as spec;

use super::change::Change;

/// The keys of the lines of an example, other than those of pieces.
#[derive(Clone, Copy)]
pub enum Key {
    Words,
    Main,
    Source,
    Text,
    Low,
    Replays,
    Resumes,
    Fail,
    Piece,
    Status,
    Events,
    Opens,
    First,
    Moves,
    Lines,
    Out,
    Unordered,
    Err,
    Or,
}

const KEYS: [Key; 19] = [
    Key::Words,
    Key::Main,
    Key::Source,
    Key::Text,
    Key::Low,
    Key::Replays,
    Key::Resumes,
    Key::Fail,
    Key::Piece,
    Key::Status,
    Key::Events,
    Key::Opens,
    Key::First,
    Key::Moves,
    Key::Lines,
    Key::Out,
    Key::Unordered,
    Key::Err,
    Key::Or,
];

fn key_word(key: Key) -> &'static str
    ensures { result.now ≡ spec.key_word key }
{
    match key {
        Key::Words => "words",
        Key::Main => "main",
        Key::Source => "source",
        Key::Text => "text",
        Key::Low => "low",
        Key::Replays => "replays",
        Key::Resumes => "resumes",
        Key::Fail => "fail",
        Key::Piece => "piece",
        Key::Status => "status",
        Key::Events => "events",
        Key::Opens => "opens",
        Key::First => "first",
        Key::Moves => "moves",
        Key::Lines => "lines",
        Key::Out => "out",
        Key::Unordered => "unordered",
        Key::Err => "err",
        Key::Or => "or",
    }
}

/// The key that a word is.
pub fn key_of(word: &str) -> Option<Key>
    ensures { result ≡ spec.keyed word.now }
{
    KEYS.iter().copied().find(|key| key_word(*key) == word)
}

/// The changes that a line `replays` names.
const CHANGES: [Change; 7] = [
    Change::Whole,
    Change::Cut,
    Change::Without,
    Change::Swapped,
    Change::Early,
    Change::Landed,
    Change::Past,
];

fn change_word(change: Change) -> &'static str
    ensures { result.now ≡ spec.change_word change }
{
    match change {
        Change::Whole => "whole",
        Change::Cut => "cut",
        Change::Without => "without one",
        Change::Swapped => "swapped",
        Change::Early => "early",
        Change::Landed => "landed early",
        Change::Past => "pasts",
        Change::Resumed => "",
    }
}

/// The change that a word is.
pub fn change_of(word: &str) -> Option<Change>
    ensures { result ≡ spec.change_of word.now }
{
    CHANGES
        .iter()
        .copied()
        .find(|change| change_word(*change) == word)
}
