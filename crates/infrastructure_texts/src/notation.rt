//! What the tables of texts are written in.

use np_syntax::Role;

/// An expression with nothing in it: a binder of the text, by its place among them, an expression that is given, by its place, or a
/// channel or an agent of the program's own, by its number.
#[derive(Clone, Copy)]
pub enum Word {
    Bound(u32),
    Given(u32),
    Channel(u32),
    Agent(u32),
}

/// What is put out or sent: a word, `[]`, `[a b]`, `[b pack(c, v)]`, `(m with a -> l)` of three binders, the map of places that the
/// daemon begins with, and the map of no places.
#[derive(Clone, Copy)]
pub enum Content {
    Just(Word),
    Unit,
    Pair(Word, Word),
    Letter(Word, Word, Word),
    With(u32, u32, u32),
    FirstPlaces,
    NoPlaces,
}

/// What is taken is bound by nothing, by one binder or by two.
#[derive(Clone, Copy)]
pub enum Names {
    Any,
    One(u32),
    Two(u32, u32),
}

/// The form of a process without the processes in it, which stand behind it in the table.
#[derive(Clone, Copy)]
pub enum Piece {
    /// `0`
    Stop,
    /// `(P | Q)`
    Both,
    /// `new l : ^Site in P`
    NewLock(u32),
    /// `c!e`
    Gives(Word, Content),
    /// `c?p -> P`
    Takes(Word, Names),
    /// `*c?p -> P`
    Serves(Word, Names),
    /// `agent b = P in Q`
    Creates(Role, u32),
    /// `migrate to e -> P`
    Goes(Role, Word),
    /// `iflocal <b>c!v then P else Q`
    Meets(Word, Word, Word),
    /// `<b@s>c!e`
    Sends(Word, Word, Word, Content),
    /// `<D@SD>c!e`, which goes to the daemon.
    Tells(Role, Word, Content),
    /// `open e`
    Opens(Word),
    /// `lookup a in m then l -> P else Q`
    Looks(Word, u32, u32),
    /// A process that is put in.
    Part,
}
