ghost use Rattle.std.specs.Prelude.{◌≡◌, IfOk};
ghost use Rattle.text_writer.specs.Writes.{Writes};
ghost use Rattle.np_verdict.specs.Faults.{of_grammar, of_scope, of_tokens};
ghost use Rattle.np_verdict.specs.Lines.{line_of, placed_line, rule_text, status_of};

use super::statuses::{BAD_HISTORY, BAD_SOURCE, BAD_USAGE, NO_MEMORY, READ_FAILED};
use itoa::Buffer;
use np_lex::LexFail;
use np_parse::ParseFail;
use np_scope::ScopeFail;
use np_syntax::{List, Memory, Text};
use np_types::{Rule, TypeFault};
use std::alloc::Global;
use text_writer::TextWriter;
use thiserror::Error;

/// Why np did not do what the command line asks for. An offset counts the bytes of the source from
/// 0. The message of an error names the cause alone; `line` has the place too.
#[derive(Clone, Copy, Debug, Error)]
pub enum Refusal {
    #[error("out of memory")]
    Memory,
    /// np does not take these words.
    #[error("the words are not understood")]
    Usage,
    #[error("a text cannot be read")]
    ReadFault,
    /// The source has more than 1,048,576 bytes.
    #[error("the source is too long")]
    TooLong,
    #[error("a byte begins no token")]
    BadChar(u32),
    #[error("a string is faulty")]
    BadString(u32),
    #[error("a number is too large")]
    BigNumber(u32),
    /// No program begins with the tokens up to and including the one at this offset.
    #[error("no program begins with the tokens")]
    Syntax(u32),
    /// Only programs that are too deep begin with the tokens up to and including the one at this
    /// offset.
    #[error("the source is too deep")]
    TooDeep(u32),
    #[error("no site and no binder in scope has the name")]
    Unbound(u32),
    #[error("a site stands twice in the list")]
    SiteTwice(u32),
    #[error("a site is one too many")]
    TooManySites(u32),
    #[error("no site has the name")]
    NotASite(u32),
    #[error("the source is not well typed")]
    TypeFault(TypeFault),
    /// The source tests a location, which a run with migration in one step cannot have.
    #[error("the source tests a location")]
    LocationTest(u32),
    /// The low program has more than 65,536 process nodes: so many, at most the greatest `u64`.
    #[error("the low program has too many process nodes")]
    TooManyNodes(u64),
    /// The sites could make more than 6,400,000 events within the budget.
    #[error("the sites could make too many events")]
    TooManyEvents,
    /// The history has more than 67,108,864 bytes.
    #[error("the history is too long")]
    HistoryTooLong,
    /// The number of the line counts from 1.
    #[error("no history goes on with the line")]
    HistSyntax(u32),
    /// The index counts the events from 0.
    #[error("the events are no run")]
    NotARun(u32),
    /// So many values were printed, and the line that was asked for is none of them.
    #[error("fewer values were printed")]
    NoLine(u32),
    /// The sites do not make such a run by themselves. The index is that of the event at which it stops being one, counted
    /// from 0.
    #[error("the sites make no such run")]
    NotOurs(u32),
    /// A site has more events in the history than the budget. It is the first such site.
    #[error("a site has more events than the budget")]
    BudgetPast(u32),
}

/// The refusal of `lex` as a refusal of the program.
pub(crate) fn of_tokens(fail: LexFail) -> Refusal
    ensures { result ≡ of_tokens fail }
{
    match fail {
        LexFail::Memory => Refusal::Memory,
        LexFail::BadChar(at) => Refusal::BadChar(at),
        LexFail::BadString(at) => Refusal::BadString(at),
        LexFail::BigNumber(at) => Refusal::BigNumber(at),
    }
}

/// The refusal of `parse` as a refusal of the program.
pub(crate) fn of_grammar(fail: ParseFail) -> Refusal
    ensures { result ≡ of_grammar fail }
{
    match fail {
        ParseFail::Memory => Refusal::Memory,
        ParseFail::Syntax(at) => Refusal::Syntax(at),
        ParseFail::TooDeep(at) => Refusal::TooDeep(at),
    }
}

/// The refusal of `resolve` as a refusal of the program.
pub(crate) fn of_scope(fail: ScopeFail) -> Refusal
    ensures { result ≡ of_scope fail }
{
    match fail {
        ScopeFail::Memory => Refusal::Memory,
        ScopeFail::Unbound(at) => Refusal::Unbound(at),
        ScopeFail::SiteTwice(at) => Refusal::SiteTwice(at),
        ScopeFail::TooManySites(at) => Refusal::TooManySites(at),
        ScopeFail::NotASite(at) => Refusal::NotASite(at),
    }
}

/// What np writes to standard error for a refusal. It is empty for `Memory`.
pub fn line(alloc: Global, refusal: Refusal) -> Result<Text, Memory>
    ensures { IfOk result (λ text. text ≡ line_of refusal) }
{
    match refusal {
        Refusal::Memory => Ok(List::new(alloc)),
        Refusal::Usage => List::from_slice(
            alloc,
            b"np: 22 Usage\nusage: np MODE FILE [SECOND] [--budget N] [--history] [--high] [--serial] [--links KIND] [--infra KIND] [--line K] [--one]\n",
        ),
        Refusal::ReadFault => List::from_slice(alloc, b"np: 4 ReadFault\n"),
        Refusal::TooLong => List::from_slice(alloc, b"np: 5 TooLong\n"),
        Refusal::BadChar(at) => placed_line(alloc, b"np: 7 BadChar at ", at),
        Refusal::BadString(at) => placed_line(alloc, b"np: 8 BadString at ", at),
        Refusal::BigNumber(at) => placed_line(alloc, b"np: 9 BigNumber at ", at),
        Refusal::Syntax(at) => placed_line(alloc, b"np: 10 Syntax at ", at),
        Refusal::TooDeep(at) => placed_line(alloc, b"np: 11 TooDeep at ", at),
        Refusal::Unbound(at) => placed_line(alloc, b"np: 12 Unbound at ", at),
        Refusal::SiteTwice(at) => placed_line(alloc, b"np: 13 SiteTwice at ", at),
        Refusal::TooManySites(at) => placed_line(alloc, b"np: 14 TooManySites at ", at),
        Refusal::NotASite(at) => placed_line(alloc, b"np: 15 NotASite at ", at),
        Refusal::TypeFault(fault) => fault_line(alloc, fault),
        Refusal::LocationTest(at) => placed_line(alloc, b"np: 25 LocationTest at ", at),
        Refusal::TooManyNodes(_) => List::from_slice(alloc, b"np: 18 TooManyNodes\n"),
        Refusal::TooManyEvents => List::from_slice(alloc, b"np: 23 TooManyEvents\n"),
        Refusal::HistoryTooLong => List::from_slice(alloc, b"np: 5 TooLong\n"),
        Refusal::HistSyntax(line) => placed_line(alloc, b"np: 20 HistSyntax at ", line),
        Refusal::NotARun(index) => placed_line(alloc, b"np: 21 NotARun at ", index),
        Refusal::NoLine(lines) => placed_line(alloc, b"np: 24 NoLine at ", lines),
        Refusal::NotOurs(index) => placed_line(alloc, b"np: 26 NotOurs at ", index),
        Refusal::BudgetPast(site) => placed_line(alloc, b"np: 27 BudgetPast at ", site),
    }
}

/// The line of a refusal with its offset, line, index, count or site.
fn placed_line(alloc: Global, name: &[u8], at: u32) -> Result<Text, Memory>
    ensures { IfOk result (λ text. text ≡ placed_line name.now at) }
{
    let mut text = TextWriter::new(alloc);
    put_placed(&mut text, name, at);
    text.finish()
}

fn put_placed(text: &mut TextWriter, name: &[u8], at: u32)
    ensures { Writes text.old text.new (placed_line name.now at) }
{
    text.put(name);
    text.put(Buffer::new().format(at).as_bytes());
    text.put(b"\n")
}

fn rule_text(rule: Rule) -> &'static [u8]
    ensures { result.now ≡ rule_text rule }
{
    match rule {
        Rule::NotChannel => b"NotChannel",
        Rule::NoInput => b"NoInput",
        Rule::NoOutput => b"NoOutput",
        Rule::Mismatch => b"Mismatch",
        Rule::NotAgent => b"NotAgent",
        Rule::NotSite => b"NotSite",
        Rule::NotBool => b"NotBool",
        Rule::NotInt => b"NotInt",
        Rule::Shape => b"Shape",
        Rule::NotComparable => b"NotComparable",
        Rule::NotPrintable => b"NotPrintable",
        Rule::Wide => b"Wide",
    }
}

/// The line of a TypeFault, with its rule and its offset.
fn fault_line(alloc: Global, fault: TypeFault) -> Result<Text, Memory>
    ensures { IfOk result (λ text. text ≡ line_of (Refusal.TypeFault fault)) }
{
    let mut text = TextWriter::new(alloc);
    text.put(b"np: 16 TypeFault ");
    text.put(rule_text(fault.rule));
    put_placed(&mut text, b" at ", fault.at);
    text.finish()
}

pub fn status(refusal: Refusal) -> u8
    ensures { result ≡ status_of refusal }
{
    match refusal {
        Refusal::Memory => NO_MEMORY,
        Refusal::Usage => BAD_USAGE,
        Refusal::ReadFault => READ_FAILED,
        Refusal::TooLong
        | Refusal::BadChar(_)
        | Refusal::BadString(_)
        | Refusal::BigNumber(_)
        | Refusal::Syntax(_)
        | Refusal::TooDeep(_)
        | Refusal::Unbound(_)
        | Refusal::SiteTwice(_)
        | Refusal::TooManySites(_)
        | Refusal::NotASite(_)
        | Refusal::TypeFault(_)
        | Refusal::LocationTest(_)
        | Refusal::TooManyNodes(_)
        | Refusal::TooManyEvents => BAD_SOURCE,
        Refusal::HistoryTooLong
        | Refusal::HistSyntax(_)
        | Refusal::NotARun(_)
        | Refusal::NoLine(_)
        | Refusal::NotOurs(_)
        | Refusal::BudgetPast(_) => BAD_HISTORY,
    }
}
