//! The modes of np, and what each takes.

/// An option of np.
#[derive(Clone, Copy, PartialEq, Eq)]
pub(super) enum Choice {
    Budget,
    High,
    History,
    Infra,
    Line,
    Links,
    One,
    Serial,
}

/// What stands behind the word of a mode.
#[derive(Clone, Copy, PartialEq, Eq)]
pub(super) enum Operands {
    Source,
    SourceAndHistory,
    History,
    Number,
}

/// A mode, with what stands behind it and with its options in the order of their words.
#[derive(Clone, Copy)]
pub(super) struct Mode {
    pub word: &'static [u8],
    pub operands: Operands,
    pub options: &'static [Choice],
}

const RUN: [Choice; 7] = [
    Choice::Budget,
    Choice::High,
    Choice::History,
    Choice::Infra,
    Choice::Links,
    Choice::One,
    Choice::Serial,
];

const HIGH: [Choice; 3] = [Choice::Budget, Choice::History, Choice::One];

const LOW: [Choice; 1] = [Choice::Infra];

const PAST: [Choice; 2] = [Choice::Infra, Choice::Line];

const RESUME: [Choice; 6] = [
    Choice::Budget,
    Choice::High,
    Choice::History,
    Choice::Infra,
    Choice::Links,
    Choice::Serial,
];

const LOAD: [Choice; 3] = [Choice::Infra, Choice::Links, Choice::Serial];

/// The modes in the order of their words.
pub(super) const MODES: [Mode; 11] = [
    Mode {
        word: b"check",
        operands: Operands::Source,
        options: &[],
    },
    Mode {
        word: b"gen",
        operands: Operands::Number,
        options: &[],
    },
    Mode {
        word: b"high",
        operands: Operands::Source,
        options: &HIGH,
    },
    Mode {
        word: b"load",
        operands: Operands::Number,
        options: &LOAD,
    },
    Mode {
        word: b"low",
        operands: Operands::Source,
        options: &LOW,
    },
    Mode {
        word: b"past",
        operands: Operands::SourceAndHistory,
        options: &PAST,
    },
    Mode {
        word: b"replay",
        operands: Operands::SourceAndHistory,
        options: &LOW,
    },
    Mode {
        word: b"resume",
        operands: Operands::SourceAndHistory,
        options: &RESUME,
    },
    Mode {
        word: b"run",
        operands: Operands::Source,
        options: &RUN,
    },
    Mode {
        word: b"show",
        operands: Operands::Source,
        options: &[],
    },
    Mode {
        word: b"upgrade",
        operands: Operands::History,
        options: &[],
    },
];

/// The word of an option.
pub(super) fn choice_word(choice: Choice) -> &'static [u8] {
    match choice {
        Choice::Budget => b"--budget",
        Choice::High => b"--high",
        Choice::History => b"--history",
        Choice::Infra => b"--infra",
        Choice::Line => b"--line",
        Choice::Links => b"--links",
        Choice::One => b"--one",
        Choice::Serial => b"--serial",
    }
}

/// Whether a value stands behind an option.
pub(super) fn has_value(choice: Choice) -> bool {
    matches!(
        choice,
        Choice::Budget | Choice::Infra | Choice::Line | Choice::Links
    )
}

/// The operand of an index, if there is one.
pub(super) fn operand_words(operands: Operands, index: usize) -> Option<&'static [u8]> {
    match (operands, index) {
        (Operands::Source | Operands::SourceAndHistory, 0) => Some(b"a source"),
        (Operands::SourceAndHistory, 1) | (Operands::History, 0) => Some(b"a history"),
        (Operands::Number, 0) => Some(b"a number from 1 to 100"),
        _ => None,
    }
}
