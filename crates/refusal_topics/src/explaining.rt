//! What is said of each refusal and of each rule, behind its name.

use super::explaining_rules::rule_words;
use super::topic::Topic;

const MEMORY: &[u8] = b"\
\x20(status 6)\n\
\n\
np did not get the memory that it asked for, and wrote nothing. This says\n\
nothing about the source. A run reserves room for as many events of each\n\
site as the budget allows.\n\
\n\
wrong:  np run a.np --budget 200000\n\
right:  np run a.np --budget 1000\n";

const READ_FAULT: &[u8] = b"\
\x20(status 4)\n\
\n\
A file could not be read: there is none of this name, or reading failed on\n\
the way. No byte of it was judged.\n\
\n\
wrong:  np check nofile.np\n\
right:  np check a.np\n";

const TOO_LONG: &[u8] = b"\
\x20(status 3 or 7)\n\
\n\
A source has at most 1,048,576 bytes (status 3), and a history at most\n\
67,108,864 (status 7). A longer one is not looked at.\n\
\n\
wrong:  np check a.np, with 1,048,577 bytes\n\
right:  np check a.np, with 1,048,576 bytes\n";

const WRITE_FAULT: &[u8] = b"\
\x20(status 5)\n\
\n\
The text was made, but could not be written whole: a disk is full, or a\n\
reader has gone. What was written is a beginning of it.\n\
\n\
wrong:  np show a.np, onto a full disk\n\
right:  np show a.np, where there is room\n";

const BAD_CHAR: &[u8] = b"\
\x20(status 3)\n\
\n\
At this byte neither a token nor a blank begins. The signs are\n\
`; = ( ) | : ^ ? ! * -> < > @ [ ] + - == _`, and comments begin with `--`. A\n\
name has at most 64 bytes. Bytes from 128 on stand in strings and comments\n\
alone.\n\
\n\
wrong:  sites home ; main at home = print 1 # two\n\
\x20       np: 7 BadChar at 36\n\
right:  sites home ; main at home = print 1 -- two\n";

const BAD_STRING: &[u8] = b"\
\x20(status 3)\n\
\n\
A string begins here and is none: it is not closed, holds a byte below 32,\n\
holds a backslash that is none of the three escapes `\\n`, `\\\"` and `\\\\`, or\n\
has more than 1,024 bytes.\n\
\n\
wrong:  sites home ; main at home = print \"a\\tb\"\n\
\x20       np: 8 BadString at 34\n\
right:  sites home ; main at home = print \"a  b\"\n";

const BIG_NUMBER: &[u8] = b"\
\x20(status 3)\n\
\n\
Numbers have 64 bits with sign. The greatest that can be written is\n\
9223372036854775807. Sums, differences and products wrap round.\n\
\n\
wrong:  sites home ; main at home = print 9223372036854775808\n\
\x20       np: 9 BigNumber at 34\n\
right:  sites home ; main at home = print 9223372036854775807 + 1\n";

const SYNTAX: &[u8] = b"\
\x20(status 3)\n\
\n\
The tokens before the place begin some program, and with the token at the\n\
place they begin none. So the fault is there or before it, never behind it.\n\
\n\
wrong:  sites home ; main at home = print 1 | print 2\n\
\x20       np: 10 Syntax at 36\n\
right:  sites home ; main at home = (print 1 | print 2)\n";

const TOO_DEEP: &[u8] = b"\
\x20(status 3)\n\
\n\
Processes, and each value, pattern and type by itself, nest at most 200\n\
levels deep. In a bracket or a sum of n parts the first stands n - 1 levels\n\
down, since both are grouped to the left.\n\
\n\
wrong:  np check a.np, with `print `, 200 times `(` and so on\n\
right:  np check a.np, with 199 times `(`\n";

const UNBOUND: &[u8] = b"\
\x20(status 3)\n\
\n\
A name is used, and neither a site nor a binder has it where it stands.\n\
`new`, `agent`, `let` and the patterns of inputs bind names, each in the\n\
process behind it, and `agent` also in that of the new agent.\n\
\n\
wrong:  sites home ; main at home = print x\n\
\x20       np: 12 Unbound at 34\n\
right:  sites home ; main at home = let x = 1 in print x\n";

const SITE_TWICE: &[u8] = b"\
\x20(status 3)\n\
\n\
The list of sites has a name that stands earlier in it. Sites are told apart\n\
by their names.\n\
\n\
wrong:  sites home home ; main at home = 0\n\
\x20       np: 13 SiteTwice at 11\n\
right:  sites home far ; main at home = 0\n";

const TOO_MANY_SITES: &[u8] = b"\
\x20(status 3)\n\
\n\
A source lists at most 128 sites, and this name is the 129th. Agents are not\n\
limited by it: many may stand at one site.\n\
\n\
wrong:  np check a.np, with 129 sites\n\
right:  np check a.np, with 128 sites\n";

const NOT_A_SITE: &[u8] = b"\
\x20(status 3)\n\
\n\
Main begins at a site of the list, and the name behind `main at` is none of\n\
them.\n\
\n\
wrong:  sites home ; main at far = 0\n\
\x20       np: 15 NotASite at 21\n\
right:  sites home far ; main at far = 0\n";

const TYPE_FAULT: &[u8] = b"\
\x20(status 3)\n\
\n\
The program is not well typed. The word behind TypeFault is the rule that is\n\
broken, and `np_look why` explains each: NotChannel NoInput NoOutput\n\
Mismatch NotAgent NotSite NotBool NotInt Shape NotComparable NotPrintable\n\
Wide. Checks are made in reading order; the first that fails is told.\n\
\n\
wrong:  sites home ; main at home = if 1 then 0 else 0\n\
\x20       np: 16 TypeFault NotBool at 31\n\
right:  sites home ; main at home = if 1 == 1 then 0 else 0\n";

const TOO_MANY_NODES: &[u8] = b"\
\x20(status 3)\n\
\n\
The source is well typed, but its translation has more than 65,536 process\n\
nodes, those of the daemon among them. `low`, `run`, `load`, `replay`,\n\
`past` and `resume` ask for this; `check` and `high` do not.\n\
\n\
wrong:  np run a.np, a full binary tree of 65,536 `0`\n\
right:  np high a.np\n";

const HIST_SYNTAX: &[u8] = b"\
\x20(status 7)\n\
\n\
This line of the history is no event line of its format and not `end`; or the\n\
line `history 1`, `history 2` or `end` is missing, and the number is one\n\
more than that of the last line.\n\
\n\
wrong:  np replay a.np h.txt, with the line `0 Fork`\n\
right:  np replay a.np h.txt, with `0 Fork 1.11 - 0 Infra 0.0 -`\n";

const NOT_A_RUN: &[u8] = b"\
\x20(status 7)\n\
\n\
The events before this one, counted from 0, are a run of the program, and\n\
with it they are none: its row of the table of reductions asks for something\n\
that is not there.\n\
\n\
wrong:  np replay a.np h.txt, with the Print before its Forks\n\
right:  np replay a.np h.txt, with the Print behind them\n";

const USAGE: &[u8] = b"\
\x20(status 2)\n\
\n\
The words are not those of a mode. Numbers are decimal and in their range,\n\
each option stands once, and only where its mode takes it.\n\
\n\
wrong:  np run a.np --budget 0\n\
right:  np run a.np --budget 1\n";

const TOO_MANY_EVENTS: &[u8] = b"\
\x20(status 3)\n\
\n\
The number of sites times the budget is at most 6,400,000, since that many\n\
events are kept. Up to 32 sites may have the greatest budget, which is\n\
200,000.\n\
\n\
wrong:  np run a.np --budget 200000, with 33 sites\n\
right:  np run a.np --budget 193939\n";

const NO_LINE: &[u8] = b"\
\x20(status 7)\n\
\n\
`past` shows what led to a printed line, and the history prints fewer lines\n\
than `--line` asks for. The number is how many it prints.\n\
\n\
wrong:  np past a.np h.txt --line 2, with one line printed\n\
right:  np past a.np h.txt --line 1\n";

const LOCATION_TEST: &[u8] = b"\
\x20(status 3)\n\
\n\
With `--one` the high text is that of a calculus in which migration is one\n\
step. A source that asks where an agent is, by `iflocal` or `<b@s>`, could\n\
tell the difference.\n\
\n\
wrong:  np high a.np --history --one\n\
right:  np high a.np --history\n";

const NOT_OURS: &[u8] = b"\
\x20(status 7)\n\
\n\
The history is a run, but not one that np makes: a site numbers the names\n\
that it makes from 0, and on a link between two sites nothing overtakes.\n\
`replay` follows it, `resume` does not.\n\
\n\
wrong:  np resume a.np h.txt, with `0.9` for `0.7`\n\
right:  np replay a.np h.txt\n";

const BUDGET_PAST: &[u8] = b"\
\x20(status 7)\n\
\n\
A site has more events in the history than the budget allows. The number is\n\
that of the first such site. The budget of `resume` counts the saved events\n\
too.\n\
\n\
wrong:  np resume a.np h.txt --budget 8, with 9 events at home\n\
right:  np resume a.np h.txt --budget 9\n";

/// What is said behind the name of a topic.
pub(super) fn words_of(topic: Topic) -> &'static [u8] {
    match topic {
        Topic::Memory => MEMORY,
        Topic::ReadFault => READ_FAULT,
        Topic::TooLong => TOO_LONG,
        Topic::WriteFault => WRITE_FAULT,
        Topic::BadChar => BAD_CHAR,
        Topic::BadString => BAD_STRING,
        Topic::BigNumber => BIG_NUMBER,
        Topic::Syntax => SYNTAX,
        Topic::TooDeep => TOO_DEEP,
        Topic::Unbound => UNBOUND,
        Topic::SiteTwice => SITE_TWICE,
        Topic::TooManySites => TOO_MANY_SITES,
        Topic::NotASite => NOT_A_SITE,
        Topic::TypeFault => TYPE_FAULT,
        Topic::TooManyNodes => TOO_MANY_NODES,
        Topic::HistSyntax => HIST_SYNTAX,
        Topic::NotARun => NOT_A_RUN,
        Topic::Usage => USAGE,
        Topic::TooManyEvents => TOO_MANY_EVENTS,
        Topic::NoLine => NO_LINE,
        Topic::LocationTest => LOCATION_TEST,
        Topic::NotOurs => NOT_OURS,
        Topic::BudgetPast => BUDGET_PAST,
        Topic::Broken(rule) => rule_words(rule),
    }
}
