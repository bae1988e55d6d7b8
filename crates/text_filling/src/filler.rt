//! What a table is filled in with, and what the words in it are then.

ghost use Rattle.std.specs.Prelude.{◌≡◌, ◌<◌, ◌≤◌, length, map};
ghost use Rattle.np_syntax.specs.declared.expression.Expr.{Expr};
ghost use Rattle.np_syntax.specs.declared.expression.ExprForm as shape;
ghost use Rattle.infrastructure_texts.specs.Pieces as piece;
ghost use Rattle.infrastructure_texts.specs.Pieces.{Writes};
ghost use Rattle.infrastructure_texts.specs.Texts as texts;
ghost use Rattle.infrastructure_texts.specs.Filling as spec;
ghost use Rattle.infrastructure_texts.specs.Whole.{content_binders, content_given, names_binders, word_binders, word_given};
ghost use Rattle.text_filling.specs.Hands.{hand_of, room_of, Holds};

use super::words::{WrittenExpr, WrittenPat, expression, name, nothing, pair, two_names};
use super::writer::Writer;
use infrastructure_texts::{Content, HERE, Names, Word};
use np_calculus::MAIN;
use np_syntax::{Expr, ExprForm, List, Value};

/// The numbers of a table's first binders, that from which the others are numbered on, and the expressions that are given.
#[derive(Clone, Copy)]
pub struct Filler<'a> {
    pub writer: Writer,
    pub binders: &'a [u32],
    pub next: u32,
    pub given: &'a [&'a Expr],
}

impl<'a> Filler<'a> {
    /// The number of the binder at this place.
    pub fn number(self, place: u32) -> u32
        requires { place < room_of self }
        ensures { result ≡ spec.number (hand_of self.entry) place }
    {
        let known = self.binders.len();
        let place = place as usize;
        if place < known {
            self.binders[place]
        } else {
            self.next + (place - known) as u32
        }
    }

    pub fn variable(self, place: u32) -> WrittenExpr
        requires { place < room_of self }
        ensures { Writes result (piece.variable (spec.number (hand_of self.entry) place)) }
    {
        expression(self.writer.alloc, ExprForm::Var(self.number(place)))
    }

    /// The expression that is given at this place.
    fn given(self, place: u32) -> WrittenExpr
        requires { place < length self.given.now }
        ensures { Writes result (spec.nth_given (map (λ e. e.now) self.entry.given.now) place) }
    {
        match self.given.get(place as usize) {
            Some(expr) => expr.copy(self.writer.alloc),
            None => unreachable!(),
        }
    }

    pub fn word(self, word: Word) -> WrittenExpr
        requires { Holds self (word_binders word) (word_given word) }
        ensures { Writes result (spec.as_word (hand_of self.entry) word) }
    {
        match word {
            Word::Bound(place) => self.variable(place),
            Word::Given(place) => self.given(place),
            Word::Channel(n) => self.writer.channel(n),
            Word::Agent(n) => self.writer.agent(n),
        }
    }

    fn letter(self, chan: WrittenExpr, value: WrittenExpr) -> WrittenExpr
        ensures { (c e : Expr) → Writes chan c → Writes value e → Writes result (texts.letter c e) }
    {
        expression(self.writer.alloc, ExprForm::Pack(chan?, value?))
    }

    fn with(self, places: WrittenExpr, agent: WrittenExpr, lock: WrittenExpr) -> WrittenExpr
        ensures { (m a l : Expr) → Writes places m → Writes agent a → Writes lock l
            → Writes result (piece.expression (shape.With m a l)) }
    {
        expression(self.writer.alloc, ExprForm::With(places?, agent?, lock?))
    }

    /// The map of places that the daemon begins with.
    fn first_places(self) -> WrittenExpr
        ensures { Writes result (spec.as_content (hand_of self.entry) Content.FirstPlaces) }
    {
        let mut places = List::new(self.writer.alloc);
        places.add((self.writer.own(MAIN), self.writer.own(HERE)))?;
        self.writer.value(Value::Places(places))
    }

    pub fn content(self, content: Content) -> WrittenExpr
        requires { Holds self (content_binders content) (content_given content) }
        ensures { Writes result (spec.as_content (hand_of self.entry) content) }
    {
        let alloc = self.writer.alloc;
        match content {
            Content::Just(word) => self.word(word),
            Content::Unit => expression(alloc, ExprForm::Tuple(List::new(alloc))),
            Content::Pair(a, b) => pair(alloc, self.word(a), self.word(b)),
            Content::Letter(b, c, v) => {
                let letter = self.letter(self.word(c), self.word(v));
                pair(alloc, self.word(b), letter)
            }
            Content::With(m, a, l) => {
                self.with(self.variable(m), self.variable(a), self.variable(l))
            }
            Content::FirstPlaces => self.first_places(),
            Content::NoPlaces => self.writer.value(Value::Places(List::new(alloc))),
        }
    }

    pub fn names(self, names: Names) -> WrittenPat
        requires { names_binders names ≤ room_of self }
        ensures { Writes result (spec.as_names (hand_of self.entry) names) }
    {
        match names {
            Names::Any => Ok(nothing()),
            Names::One(x) => Ok(name(self.number(x))),
            Names::Two(x, y) => two_names(self.writer.alloc, self.number(x), self.number(y)),
        }
    }
}
