//! What is said of each rule of typing, behind its name.

use np_types::Rule;

const NOT_CHANNEL: &[u8] = b"\
\x20(status 3)\n\
\n\
Before `!` and `?` stands a channel. A number, a string, a tuple, a site or\n\
an agent is none.\n\
\n\
wrong:  sites home ; main at home = let x = 1 in x!2\n\
\x20       np: 16 TypeFault NotChannel at 41\n\
right:  sites home ; main at home = new x : ^Int in x!2\n";

const NO_INPUT: &[u8] = b"\
\x20(status 3)\n\
\n\
A channel of type `!T` may be sent on and not received from. What was given\n\
as `!T` stays so in the hands of who got it.\n\
\n\
wrong:  sites home ; main at home = new c : !Int in c?x -> print x\n\
\x20       np: 16 TypeFault NoInput at 44\n\
right:  sites home ; main at home = new c : ^Int in c?x -> print x\n";

const NO_OUTPUT: &[u8] = b"\
\x20(status 3)\n\
\n\
A channel of type `?T` may be received from and not sent on. What was given\n\
as `?T` stays so in the hands of who got it.\n\
\n\
wrong:  sites home ; main at home = new c : ?Int in c!1\n\
\x20       np: 16 TypeFault NoOutput at 44\n\
right:  sites home ; main at home = new c : ^Int in c!1\n";

const MISMATCH: &[u8] = b"\
\x20(status 3)\n\
\n\
A value stands where one of another type is wanted: on a channel the type\n\
that it carries or one below, at `==` the type of the left side. `^T` is\n\
below `?T` and `!T`; `?S` is below `?T` where `S` is below `T`, and `!S`\n\
below `!T` where `T` is below `S`.\n\
\n\
wrong:  sites home ; main at home = new c : ^Int in c!true\n\
\x20       np: 16 TypeFault Mismatch at 46\n\
right:  sites home ; main at home = new c : ^Bool in c!true\n";

const NOT_AGENT: &[u8] = b"\
\x20(status 3)\n\
\n\
Between `<` and `@`, and between `<` and `>` of `iflocal`, stands an agent:\n\
`main`, a name that `agent` binds, or a value that was received as `Agent`.\n\
\n\
wrong:  sites home ; main at home = new c : ^Int in <home@home>c!1\n\
\x20       np: 16 TypeFault NotAgent at 45\n\
right:  sites home ; main at home = new c : ^Int in <main@home>c!1\n";

const NOT_SITE: &[u8] = b"\
\x20(status 3)\n\
\n\
Behind `migrate to` and behind `@` stands a site: a name of the list, or a\n\
value that was received as `Site`.\n\
\n\
wrong:  sites home ; main at home = migrate to 3 -> 0\n\
\x20       np: 16 TypeFault NotSite at 39\n\
right:  sites home ; main at home = migrate to home -> 0\n";

const NOT_BOOL: &[u8] = b"\
\x20(status 3)\n\
\n\
Behind `if` stands a truth value: `true`, `false`, a comparison, or a value\n\
that was received as `Bool`. Numbers are none.\n\
\n\
wrong:  sites home ; main at home = if 1 then 0 else 0\n\
\x20       np: 16 TypeFault NotBool at 31\n\
right:  sites home ; main at home = if 1 == 1 then 0 else 0\n";

const NOT_INT: &[u8] = b"\
\x20(status 3)\n\
\n\
On both sides of `+`, `-`, `*` and `<` stand numbers. Strings are not joined\n\
by `+`, and only numbers have an order.\n\
\n\
wrong:  sites home ; main at home = print 1 + true\n\
\x20       np: 16 TypeFault NotInt at 38\n\
right:  sites home ; main at home = print 1 + 2\n";

const SHAPE: &[u8] = b"\
\x20(status 3)\n\
\n\
A pattern in square brackets takes a tuple apart, and has as many components\n\
as the tuple. What is no tuple is bound to one name.\n\
\n\
wrong:  sites home ; main at home = let [x y z] = [1 2] in print x\n\
\x20       np: 16 TypeFault Shape at 32\n\
right:  sites home ; main at home = let [x y] = [1 2] in print x\n";

const NOT_COMPARABLE: &[u8] = b"\
\x20(status 3)\n\
\n\
`==` compares two values of `Int`, `Bool`, `String`, `Site` or `Agent`.\n\
Tuples are compared part by part, and channels not at all.\n\
\n\
wrong:  sites home ; main at home = print [1] == [1]\n\
\x20       np: 16 TypeFault NotComparable at 34\n\
right:  sites home ; main at home = let [x] = [1] in print x == 1\n";

const NOT_PRINTABLE: &[u8] = b"\
\x20(status 3)\n\
\n\
`Int`, `Bool`, `String`, `Site` and tuples of these are printed. Agents and\n\
channels are names that np makes, and have no text.\n\
\n\
wrong:  sites home ; main at home = print main\n\
\x20       np: 16 TypeFault NotPrintable at 34\n\
right:  sites home ; main at home = print \"main\"\n";

const WIDE: &[u8] = b"\
\x20(status 3)\n\
\n\
A type, at a `new` or of a tuple, has at most 1,024 nodes: its words, signs\n\
and tuples, each counted where it stands.\n\
\n\
wrong:  np check a.np, with `new c : T in 0` and 1,025 nodes in T\n\
right:  np check a.np, with 1,024 nodes in T\n";

/// What is said of a rule of typing.
pub(super) fn rule_words(rule: Rule) -> &'static [u8] {
    match rule {
        Rule::NotChannel => NOT_CHANNEL,
        Rule::NoInput => NO_INPUT,
        Rule::NoOutput => NO_OUTPUT,
        Rule::Mismatch => MISMATCH,
        Rule::NotAgent => NOT_AGENT,
        Rule::NotSite => NOT_SITE,
        Rule::NotBool => NOT_BOOL,
        Rule::NotInt => NOT_INT,
        Rule::Shape => SHAPE,
        Rule::NotComparable => NOT_COMPARABLE,
        Rule::NotPrintable => NOT_PRINTABLE,
        Rule::Wide => WIDE,
    }
}
