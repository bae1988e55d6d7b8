//! The texts as tables. A piece stands before the processes in it. Over each table stands its text, and what it is filled in with.

use super::notation::Content::{FirstPlaces, Just, Letter, NoPlaces, Pair, Unit, With};
use super::notation::Names::{Any, One, Two};
use super::notation::Piece::{
    self, Both, Creates, Gives, Goes, Looks, Meets, NewLock, Opens, Part, Sends, Serves, Stop,
    Takes, Tells,
};
use super::notation::Word::{self, Agent, Bound, Channel, Given};
use np_calculus::MAIN as MAIN_AGENT;
use np_syntax::Role::{Infra, Plain, Post};

const REGISTER: Word = Channel(2);

const MIGRATING: Word = Channel(3);

const MIGRATED: Word = Channel(4);

const MESSAGE: Word = Channel(5);

const DELIVER: Word = Channel(6);

const ACK: Word = Channel(7);

const DACK: Word = Channel(8);

const CURRENTLOC: Word = Channel(9);

const LOCK: Word = Channel(10);

/// The number of the channel that has main's site, which stands in the first map of places.
pub const HERE: u32 = 13;

const CACHE: Word = Channel(14);

const WHERE: Word = Channel(15);

const FOUND: Word = Channel(16);

/// The daemon, server by server. Given: main's site.
pub const DAEMON: &[Piece] = &[
    // (lock!{main here} | here!s0 | *register.. | *migrating.. | *migrated.. | *message.. | *dack..)
    Both,
    Both,
    Both,
    Both,
    Both,
    Both,
    Gives(LOCK, FirstPlaces),
    Gives(Channel(HERE), Just(Given(0))),
    // *register?[a s] -> lock?m -> new l : ^Site in (lock!(m with a -> l) | l!s | <a@s>ack![])
    Serves(REGISTER, Two(0, 1)),
    Takes(LOCK, One(2)),
    NewLock(3),
    Both,
    Both,
    Gives(LOCK, With(2, 0, 3)),
    Gives(Bound(3), Just(Bound(1))),
    Sends(Bound(0), Bound(1), ACK, Unit),
    // *migrating?a -> lock?m -> lookup a in m then l -> (l?s -> <a@s>ack![] | lock!m) else 0
    Serves(MIGRATING, One(4)),
    Takes(LOCK, One(5)),
    Looks(Bound(4), 5, 6),
    Both,
    Takes(Bound(6), One(7)),
    Sends(Bound(4), Bound(7), ACK, Unit),
    Gives(LOCK, Just(Bound(5))),
    Stop,
    // *migrated?[a t] -> lock?m -> lookup a in m then l -> (l!t | <a@t>ack![] | lock!m) else 0
    Serves(MIGRATED, Two(8, 9)),
    Takes(LOCK, One(10)),
    Looks(Bound(8), 10, 11),
    Both,
    Both,
    Gives(Bound(11), Just(Bound(9))),
    Sends(Bound(8), Bound(9), ACK, Unit),
    Gives(LOCK, Just(Bound(10))),
    Stop,
    // *message?[b v] -> lock?m -> lookup b in m then l -> (l?s -> <b@s>deliver![v s] | lock!m) else 0
    Serves(MESSAGE, Two(12, 13)),
    Takes(LOCK, One(14)),
    Looks(Bound(12), 14, 15),
    Both,
    Takes(Bound(15), One(16)),
    Sends(Bound(12), Bound(16), DELIVER, Pair(Bound(13), Bound(16))),
    Gives(LOCK, Just(Bound(14))),
    Stop,
    // *dack?[b s] -> lock?m -> lookup b in m then l -> (l!s | lock!m) else 0
    Serves(DACK, Two(17, 18)),
    Takes(LOCK, One(19)),
    Looks(Bound(17), 19, 20),
    Both,
    Gives(Bound(20), Just(Bound(18))),
    Gives(LOCK, Just(Bound(19))),
    Stop,
];

/// The daemon with caches, whose binders are numbered from the same on. Put in: the daemon without.
pub const CACHED_DAEMON: &[Piece] = &[
    // (.. | *where..)
    Both,
    Part,
    // *where?[a b] -> lock?m -> lookup b in m then l -> lookup a in m then k ->
    //     (l?s -> (l!s | k?u -> (k!u | <a@u>found![b s])) | lock!m) else 0 else 0
    Serves(WHERE, Two(21, 22)),
    Takes(LOCK, One(23)),
    Looks(Bound(22), 23, 24),
    Looks(Bound(21), 23, 25),
    Both,
    Takes(Bound(24), One(26)),
    Both,
    Gives(Bound(24), Just(Bound(26))),
    Takes(Bound(25), One(27)),
    Both,
    Gives(Bound(25), Just(Bound(27))),
    Sends(Bound(21), Bound(27), FOUND, Pair(Bound(22), Bound(26))),
    Gives(LOCK, Just(Bound(23))),
    Stop,
    Stop,
];

/// `<b@?>c!v`. Given: b, c and v.
pub const POST: &[Piece] = &[
    // <D@SD>message![b pack(c, v)]
    Tells(Post, MESSAGE, Letter(Given(0), Given(1), Given(2))),
];

/// `migrate to e -> P`. Given: the agent a that it stands in, and e. Put in: P.
pub const MIGRATION: &[Piece] = &[
    // currentloc?_ -> (ack?_ -> migrate to e -> (ack?_ -> (P | currentloc!e) | <D@SD>migrated![a e]) | <D@SD>migrating!a)
    Takes(CURRENTLOC, Any),
    Both,
    Takes(ACK, Any),
    Goes(Plain, Given(1)),
    Both,
    Takes(ACK, Any),
    Both,
    Part,
    Gives(CURRENTLOC, Just(Given(1))),
    Tells(Infra, MIGRATED, Pair(Given(0), Given(1))),
    Tells(Infra, MIGRATING, Just(Given(0))),
];

/// `agent b = P in Q`. Its binders: b, S, l and t. Given: the agent a that it stands in. Put in: P and Q.
pub const CREATION: &[Piece] = &[
    // currentloc?S -> agent b =
    Takes(CURRENTLOC, One(1)),
    Creates(Plain, 0),
    Both,
    Both,
    // ack?_ -> (P | <a@S>ack![] | currentloc!S)
    Takes(ACK, Any),
    Both,
    Both,
    Part,
    Sends(Given(0), Bound(1), ACK, Unit),
    Gives(CURRENTLOC, Just(Bound(1))),
    // *deliver?[l t] -> (open l | <D@SD>dack![b t])
    Serves(DELIVER, Two(2, 3)),
    Both,
    Opens(Bound(2)),
    Tells(Infra, DACK, Pair(Bound(0), Bound(3))),
    // <D@SD>register![b S]
    Tells(Infra, REGISTER, Pair(Bound(0), Bound(1))),
    // in ack?_ -> (Q | currentloc!S)
    Takes(ACK, Any),
    Both,
    Part,
    Gives(CURRENTLOC, Just(Bound(1))),
];

/// Main's bracket, around its process P. Its binders: l and t. Given: main's site s. Put in: P.
pub const MAIN: &[Piece] = &[
    // (P | currentloc!s |
    Both,
    Both,
    Part,
    Gives(CURRENTLOC, Just(Given(0))),
    // *deliver?[l t] -> (open l | <D@SD>dack![main t])
    Serves(DELIVER, Two(0, 1)),
    Both,
    Opens(Bound(0)),
    Tells(Infra, DACK, Pair(Agent(MAIN_AGENT), Bound(1))),
];

/// `<b@?>c!v` with caches. Given: the agent a that it stands in, b, c and v.
pub const CACHED_POST: &[Piece] = &[
    // cache?m -> lookup b in m then l -> (l?s -> (agent t = M in 0 | l!s) | cache!m)
    Takes(CACHE, One(0)),
    Looks(Given(1), 0, 1),
    Both,
    Takes(Bound(1), One(2)),
    Both,
    Creates(Post, 3),
    // M: migrate to s -> iflocal <b>c!v then 0 else (<D@SD>message![b pack(c, v)] | <D@SD>where![a b])
    Goes(Infra, Bound(2)),
    Meets(Given(1), Given(2), Given(3)),
    Stop,
    Both,
    Tells(Infra, MESSAGE, Letter(Given(1), Given(2), Given(3))),
    Tells(Infra, WHERE, Pair(Given(0), Given(1))),
    Stop,
    Gives(Bound(1), Just(Bound(2))),
    Gives(CACHE, Just(Bound(0))),
    // else (<D@SD>message![b pack(c, v)] | <D@SD>where![a b] | cache!m)
    Both,
    Both,
    Tells(Post, MESSAGE, Letter(Given(1), Given(2), Given(3))),
    Tells(Infra, WHERE, Pair(Given(0), Given(1))),
    Gives(CACHE, Just(Bound(0))),
];

/// `agent b = P in Q` with caches. Its first binders: b, S, l and t. Given: the agent a that it stands in. Put in: P and Q.
pub const CACHED_CREATION: &[Piece] = &[
    // currentloc?S -> agent b =
    Takes(CURRENTLOC, One(1)),
    Creates(Plain, 0),
    Both,
    Both,
    Both,
    Both,
    // ack?_ -> (P | <a@S>ack![] | currentloc!S)
    Takes(ACK, Any),
    Both,
    Both,
    Part,
    Sends(Given(0), Bound(1), ACK, Unit),
    Gives(CURRENTLOC, Just(Bound(1))),
    // *deliver?[l t] -> (open l | <D@SD>dack![b t])
    Serves(DELIVER, Two(2, 3)),
    Both,
    Opens(Bound(2)),
    Tells(Infra, DACK, Pair(Bound(0), Bound(3))),
    // cache!{}
    Gives(CACHE, NoPlaces),
    // *found?[x y] -> cache?m -> lookup x in m then l -> (l?_ -> l!y | cache!m) else new l : ^Site in (cache!(m with x -> l) | l!y)
    Serves(FOUND, Two(4, 5)),
    Takes(CACHE, One(6)),
    Looks(Bound(4), 6, 7),
    Both,
    Takes(Bound(7), Any),
    Gives(Bound(7), Just(Bound(5))),
    Gives(CACHE, Just(Bound(6))),
    NewLock(8),
    Both,
    Gives(CACHE, With(6, 4, 8)),
    Gives(Bound(8), Just(Bound(5))),
    // <D@SD>register![b S]
    Tells(Infra, REGISTER, Pair(Bound(0), Bound(1))),
    // in ack?_ -> (Q | currentloc!S)
    Takes(ACK, Any),
    Both,
    Part,
    Gives(CURRENTLOC, Just(Bound(1))),
];

/// Main's bracket with a cache, around its process P. Its first binders: l and t. Given: main's site s. Put in: P.
pub const CACHED_MAIN: &[Piece] = &[
    // (P | currentloc!s |
    Both,
    Both,
    Both,
    Both,
    Part,
    Gives(CURRENTLOC, Just(Given(0))),
    // *deliver?[l t] -> (open l | <D@SD>dack![main t])
    Serves(DELIVER, Two(0, 1)),
    Both,
    Opens(Bound(0)),
    Tells(Infra, DACK, Pair(Agent(MAIN_AGENT), Bound(1))),
    // cache!{}
    Gives(CACHE, NoPlaces),
    // *found?[x y] -> cache?m -> lookup x in m then l -> (l?_ -> l!y | cache!m) else new l : ^Site in (cache!(m with x -> l) | l!y)
    Serves(FOUND, Two(2, 3)),
    Takes(CACHE, One(4)),
    Looks(Bound(2), 4, 5),
    Both,
    Takes(Bound(5), Any),
    Gives(Bound(5), Just(Bound(3))),
    Gives(CACHE, Just(Bound(4))),
    NewLock(6),
    Both,
    Gives(CACHE, With(4, 2, 6)),
    Gives(Bound(6), Just(Bound(3))),
];
