//! The modes that are built, and what may stand behind FILE in each.

ghost use Rattle.std.specs.Prelude.{◌≡◌};
ghost use Rattle.np_words.specs.Modes as spec;

/// What the program does.
#[derive(Clone, Copy)]
pub enum Mode {
    Run,
    High,
    Show,
    Check,
    Low,
    Replay,
    Past,
    Resume,
    Upgrade,
    Gen,
    Load,
}

/// What carries agents and packets from site to site: lists that are handed over while all sites pause, or a ring for each
/// ordered pair of sites, or one queue for each receiving site, into which all sites push.
#[derive(Clone, Copy)]
pub enum Links {
    Tray,
    Rings,
    Inbox,
}

/// What passes on the messages that are for an agent wherever it is: a daemon alone, or beside it a cache in each agent, of where others
/// were last found, and a messenger that goes there.
#[derive(Clone, Copy)]
pub enum Infrastructure {
    Central,
    Cache,
}

/// The text of the events of the high level that a report has: none, or one in which a migration is a Depart and later an
/// Arrive, or one in which the Arrive stands directly behind the Depart.
#[derive(Clone, Copy)]
pub enum HighText {
    Absent,
    TwoSteps,
    OneStep,
}

/// Which options a mode has.
#[derive(Clone, Copy)]
pub struct Options {
    pub budget: bool,
    pub history: bool,
    pub high: bool,
    pub serial: bool,
    pub links: bool,
    pub infrastructure: bool,
    pub line: bool,
    pub one: bool,
}

/// A mode, with the words that may stand behind FILE.
#[derive(Clone, Copy)]
pub struct Entry {
    pub mode: Mode,
    pub second: bool,
    pub options: Options,
}

const NO_OPTIONS: Options = Options {
    budget: false,
    history: false,
    high: false,
    serial: false,
    links: false,
    infrastructure: false,
    line: false,
    one: false,
};

const RUN_OPTIONS: Options = Options {
    budget: true,
    history: true,
    high: true,
    serial: true,
    links: true,
    infrastructure: true,
    one: true,
    ..NO_OPTIONS
};

const HIGH_OPTIONS: Options = Options {
    budget: true,
    history: true,
    one: true,
    ..NO_OPTIONS
};

/// Those of the modes that make or follow the low program alone.
const LOW_OPTIONS: Options = Options {
    infrastructure: true,
    ..NO_OPTIONS
};

const PAST_OPTIONS: Options = Options {
    infrastructure: true,
    line: true,
    ..NO_OPTIONS
};

const RESUME_OPTIONS: Options = Options {
    budget: true,
    history: true,
    high: true,
    serial: true,
    links: true,
    infrastructure: true,
    ..NO_OPTIONS
};

const LOAD_OPTIONS: Options = Options {
    serial: true,
    links: true,
    infrastructure: true,
    ..NO_OPTIONS
};

/// The modes that are built.
const MODES: [Entry; 11] = [
    Entry {
        mode: Mode::Run,
        second: false,
        options: RUN_OPTIONS,
    },
    Entry {
        mode: Mode::High,
        second: false,
        options: HIGH_OPTIONS,
    },
    Entry {
        mode: Mode::Show,
        second: false,
        options: NO_OPTIONS,
    },
    Entry {
        mode: Mode::Check,
        second: false,
        options: NO_OPTIONS,
    },
    Entry {
        mode: Mode::Low,
        second: false,
        options: LOW_OPTIONS,
    },
    Entry {
        mode: Mode::Replay,
        second: true,
        options: LOW_OPTIONS,
    },
    Entry {
        mode: Mode::Past,
        second: true,
        options: PAST_OPTIONS,
    },
    Entry {
        mode: Mode::Resume,
        second: true,
        options: RESUME_OPTIONS,
    },
    Entry {
        mode: Mode::Upgrade,
        second: false,
        options: NO_OPTIONS,
    },
    Entry {
        mode: Mode::Gen,
        second: false,
        options: NO_OPTIONS,
    },
    Entry {
        mode: Mode::Load,
        second: false,
        options: LOAD_OPTIONS,
    },
];

/// The kinds of links that are built.
const KINDS: [Links; 3] = [Links::Tray, Links::Rings, Links::Inbox];

/// The infrastructures that are built.
const INFRASTRUCTURES: [Infrastructure; 2] = [Infrastructure::Central, Infrastructure::Cache];

fn mode_word(mode: Mode) -> &'static str
    ensures { result.now ≡ spec.mode_word mode }
{
    match mode {
        Mode::Run => "run",
        Mode::High => "high",
        Mode::Show => "show",
        Mode::Check => "check",
        Mode::Low => "low",
        Mode::Replay => "replay",
        Mode::Past => "past",
        Mode::Resume => "resume",
        Mode::Upgrade => "upgrade",
        Mode::Gen => "gen",
        Mode::Load => "load",
    }
}

/// The mode that a word names, if it is built.
pub fn entry_of(word: &str) -> Option<Entry>
    ensures { result ≡ spec.entry_of word.now }
{
    MODES
        .iter()
        .copied()
        .find(|entry| mode_word(entry.mode) == word)
}

fn links_word(links: Links) -> &'static str
    ensures { result.now ≡ spec.links_word links }
{
    match links {
        Links::Tray => "tray",
        Links::Rings => "rings",
        Links::Inbox => "inbox",
    }
}

/// The kind of links that a word names.
pub fn links_of(word: &str) -> Option<Links>
    ensures { result ≡ spec.links_of word.now }
{
    KINDS.iter().copied().find(|kind| links_word(*kind) == word)
}

fn infrastructure_word(infrastructure: Infrastructure) -> &'static str
    ensures { result.now ≡ spec.infrastructure_word infrastructure }
{
    match infrastructure {
        Infrastructure::Central => "central",
        Infrastructure::Cache => "cache",
    }
}

/// The infrastructure that a word names.
pub fn infrastructure_of(word: &str) -> Option<Infrastructure>
    ensures { result ≡ spec.infrastructure_of word.now }
{
    INFRASTRUCTURES.iter().copied().find(|infrastructure| infrastructure_word(*infrastructure)
        == word)
}
