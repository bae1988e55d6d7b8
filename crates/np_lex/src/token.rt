ghost use Rattle.std.specs.Prelude.{◌≡◌};
ghost use Rattle.np_lex.specs.Tokens.{key_text, sign_text};

use np_syntax::Text;

/// A keyword.
#[derive(Clone, Copy, PartialEq, Eq)]
pub enum Key {
    Sites,
    Main,
    At,
    New,
    In,
    AgentWord,
    Migrate,
    To,
    IfLocal,
    Then,
    Else,
    If,
    Let,
    Print,
    True,
    False,
    IntType,
    BoolType,
    StringType,
    SiteType,
    AgentType,
}

/// Each keyword once.
pub const KEYS: [Key; 21] = [
    Key::Sites,
    Key::Main,
    Key::At,
    Key::New,
    Key::In,
    Key::AgentWord,
    Key::Migrate,
    Key::To,
    Key::IfLocal,
    Key::Then,
    Key::Else,
    Key::If,
    Key::Let,
    Key::Print,
    Key::True,
    Key::False,
    Key::IntType,
    Key::BoolType,
    Key::StringType,
    Key::SiteType,
    Key::AgentType,
];

impl Key {
    /// How the keyword is written.
    pub fn text(self) -> &'static [u8]
        ensures { result.now ≡ key_text self }
    {
        match self {
            Key::Sites => b"sites",
            Key::Main => b"main",
            Key::At => b"at",
            Key::New => b"new",
            Key::In => b"in",
            Key::AgentWord => b"agent",
            Key::Migrate => b"migrate",
            Key::To => b"to",
            Key::IfLocal => b"iflocal",
            Key::Then => b"then",
            Key::Else => b"else",
            Key::If => b"if",
            Key::Let => b"let",
            Key::Print => b"print",
            Key::True => b"true",
            Key::False => b"false",
            Key::IntType => b"Int",
            Key::BoolType => b"Bool",
            Key::StringType => b"String",
            Key::SiteType => b"Site",
            Key::AgentType => b"Agent",
        }
    }
}

/// A sign.
#[derive(Clone, Copy, PartialEq, Eq)]
pub enum Sign {
    Semi,
    Equals,
    RoundOpen,
    RoundClose,
    Bar,
    Colon,
    Caret,
    Query,
    Bang,
    Star,
    Arrow,
    Less,
    Greater,
    At,
    SquareOpen,
    SquareClose,
    Plus,
    Minus,
    Same,
    Underscore,
}

/// Each sign once.
pub const SIGNS: [Sign; 20] = [
    Sign::Semi,
    Sign::Equals,
    Sign::RoundOpen,
    Sign::RoundClose,
    Sign::Bar,
    Sign::Colon,
    Sign::Caret,
    Sign::Query,
    Sign::Bang,
    Sign::Star,
    Sign::Arrow,
    Sign::Less,
    Sign::Greater,
    Sign::At,
    Sign::SquareOpen,
    Sign::SquareClose,
    Sign::Plus,
    Sign::Minus,
    Sign::Same,
    Sign::Underscore,
];

impl Sign {
    /// How the sign is written.
    pub fn text(self) -> &'static [u8]
        ensures { result.now ≡ sign_text self }
    {
        match self {
            Sign::Semi => b";",
            Sign::Equals => b"=",
            Sign::RoundOpen => b"(",
            Sign::RoundClose => b")",
            Sign::Bar => b"|",
            Sign::Colon => b":",
            Sign::Caret => b"^",
            Sign::Query => b"?",
            Sign::Bang => b"!",
            Sign::Star => b"*",
            Sign::Arrow => b"->",
            Sign::Less => b"<",
            Sign::Greater => b">",
            Sign::At => b"@",
            Sign::SquareOpen => b"[",
            Sign::SquareClose => b"]",
            Sign::Plus => b"+",
            Sign::Minus => b"-",
            Sign::Same => b"==",
            Sign::Underscore => b"_",
        }
    }
}

/// What a token is. A string is the text between its quotes, with its escapes read.
pub enum What {
    Word(Key),
    Ident(Text),
    Number(i64),
    Str(Text),
    Sign(Sign),
    End,
}

impl Drop for What {
    fn drop(self) {
        match self {
            What::Word(_)
            | What::Ident(_)
            | What::Number(_)
            | What::Str(_)
            | What::Sign(_)
            | What::End => {}
        }
    }
}

/// A token, with the offsets in the source, in bytes, at which it begins and ends.
#[derive(Drop)]
pub struct Token {
    pub at: u32,
    pub end: u32,
    pub what: What,
}
