//! Which forms are open where tokens stop being those of a program.

use super::forms::Form;
use super::kind::{Kind, kind_of};
use super::symbol::{
    Symbol, begins_pattern, begins_type, begins_value, begun_by, begun_process, begun_type,
    begun_value, is_cap, is_ground,
};
use np_lex::{Key, Sign, Token};
use np_syntax::{List, MOST_PARTS, Memory};
use std::alloc::Global;

/// A form that has begun, with the index of its first token.
#[derive(Clone, Copy)]
pub struct Open {
    pub form: Form,
    pub first: usize,
}

/// What is known before a token: its index; the forms that are open, and those that have ended behind the token before it, the
/// innermost first; whether a comparison has ended and a further one would begin; whether a tuple has as many components as it may;
/// where the outermost value began, and how many values are open.
#[derive(Drop)]
pub struct Reading {
    alloc: Global,
    awaited: List<Symbol>,
    pub at: usize,
    pub open: List<Open>,
    pub ended: List<Open>,
    pub compared: bool,
    pub full: bool,
    pub value: Option<usize>,
    pub inside: usize,
}

/// What came of a symbol: it was taken as the token, it was left or made way for others, or the token cannot stand here.
#[derive(Clone, Copy, PartialEq, Eq)]
enum Turn {
    Taken,
    Again,
    Stuck,
}

/// How many symbols may stand before a token; more are open nowhere.
const MOST_TURNS: usize = 100_000;

const PROGRAM: [Symbol; 9] = [
    Symbol::Take(Kind::Word(Key::Sites)),
    Symbol::Take(Kind::Name),
    Symbol::Names,
    Symbol::Take(Kind::Word(Key::Main)),
    Symbol::Take(Kind::Word(Key::At)),
    Symbol::Take(Kind::Name),
    Symbol::Take(Kind::Sign(Sign::Equals)),
    Symbol::Process,
    Symbol::Take(Kind::End),
];

impl Reading {
    /// Awaits symbols before what was awaited.
    fn expect(&mut self, symbols: &[Symbol]) -> Result<Turn, Memory> {
        for symbol in symbols.iter().rev() {
            self.awaited.add(*symbol)?;
        }
        Ok(Turn::Again)
    }

    /// Begins a form, and awaits its symbols.
    fn enter(&mut self, form: Form, symbols: &[Symbol]) -> Result<Turn, Memory> {
        self.open.add(Open {
            form,
            first: self.at,
        })?;
        self.expect(symbols)
    }

    /// Ends the innermost form.
    fn leave(&mut self) -> Result<Turn, Memory> {
        if let Some(open) = self.open.pop() {
            self.ended.add(open)?;
        }
        Ok(Turn::Again)
    }

    /// Goes past the token.
    fn take(&mut self) -> Turn {
        self.at = self.at.saturating_add(1);
        self.ended = List::new(self.alloc);
        Turn::Taken
    }

    /// What stands behind a channel's name.
    fn behind_channel(&mut self, kind: Kind) -> Result<Turn, Memory> {
        let form = match kind {
            Kind::Sign(Sign::Bang) => Form::Output,
            Kind::Sign(Sign::Query) => Form::Input,
            _ => return Ok(Turn::Stuck),
        };
        if let Some(open) = self.open.pop() {
            self.open.add(Open { form, ..open })?;
        }
        self.expect(begun_by(form))
    }

    /// A part of a tuple, or its end.
    fn part(
        &mut self,
        kind: Kind,
        begins: bool,
        part: Symbol,
        others: Symbol,
        count: u32,
    ) -> Result<Turn, Memory> {
        if kind == Kind::Sign(Sign::SquareClose) {
            return self.expect([Symbol::Take(kind), Symbol::Close].as_slice());
        }
        self.full = count == MOST_PARTS;
        if !begins || self.full {
            return Ok(Turn::Stuck);
        }
        self.expect([part, others].as_slice())
    }

    /// A value begins, which may stand in another one.
    fn begin_value(&mut self) -> Result<Turn, Memory> {
        if self.inside == 0 {
            self.value = Some(self.at);
        }
        self.inside = self.inside.saturating_add(1);
        self.expect([Symbol::Sum, Symbol::Comparison, Symbol::EndValue].as_slice())
    }

    /// What begins with this token, where such a symbol is awaited that stands for a form.
    fn form_turn(&mut self, symbol: Symbol, kind: Kind) -> Result<Turn, Memory> {
        let begun = match symbol {
            Symbol::Process => begun_process(kind),
            Symbol::Type => begun_type(kind),
            Symbol::ChannelType if is_cap(kind) => begun_type(kind),
            Symbol::Atom => begun_value(kind),
            Symbol::Pattern if kind == Kind::Sign(Sign::SquareOpen) => Some(Form::Pattern),
            _ => None,
        };
        match begun {
            Some(Form::Channel) => self.enter(
                Form::Channel,
                [Symbol::Take(kind), Symbol::Behind].as_slice(),
            ),
            Some(Form::ChannelType) => self.enter(
                Form::ChannelType,
                [Symbol::Take(kind), Symbol::Type, Symbol::Close].as_slice(),
            ),
            Some(form) => self.enter(form, begun_by(form)),
            None => self.leaf(symbol, kind),
        }
    }

    /// A token that stands for a form by itself.
    fn leaf(&mut self, symbol: Symbol, kind: Kind) -> Result<Turn, Memory> {
        let stands = match symbol {
            Symbol::Type => is_ground(kind),
            Symbol::Atom => begins_value(kind),
            Symbol::Pattern => begins_pattern(kind),
            _ => false,
        };
        if stands {
            self.expect([Symbol::Take(kind)].as_slice())
        } else {
            Ok(Turn::Stuck)
        }
    }

    /// An operator of a list and its second operand, or nothing.
    fn operator(
        &mut self,
        kind: Kind,
        stands: bool,
        operand: Symbol,
        behind: Symbol,
    ) -> Result<Turn, Memory> {
        if stands {
            self.expect([Symbol::Take(kind), operand, behind].as_slice())
        } else {
            Ok(Turn::Again)
        }
    }

    /// What stands in lists of sites and of processes.
    fn list_turn(&mut self, symbol: Symbol, kind: Kind) -> Result<Turn, Memory> {
        match symbol {
            Symbol::Names if kind == Kind::Name => self.expect([
                Symbol::Take(kind),
                Symbol::Names,
            ].as_slice()),
            Symbol::Names => self.expect([Symbol::Take(Kind::Sign(Sign::Semi))].as_slice()),
            Symbol::Bars if kind == Kind::Sign(Sign::Bar) => {
                self.expect([Symbol::Take(kind), Symbol::Process, Symbol::Bars].as_slice())
            }
            Symbol::Bars => self.expect([
                Symbol::Take(Kind::Sign(Sign::RoundClose)),
                Symbol::Close,
            ].as_slice()),
            _ => self.part_turn(symbol, kind),
        }
    }

    /// What stands behind a channel's name, and in tuples.
    fn part_turn(&mut self, symbol: Symbol, kind: Kind) -> Result<Turn, Memory> {
        match symbol {
            Symbol::Behind => self.behind_channel(kind),
            Symbol::Values(count) => {
                self.part(
                    kind,
                    begins_value(kind),
                    Symbol::Value,
                    Symbol::Values(count.saturating_add(1)),
                    count,
                )
            }
            Symbol::Patterns(count) => {
                let begins = begins_pattern(kind);
                self.part(
                    kind,
                    begins,
                    Symbol::Pattern,
                    Symbol::Patterns(count.saturating_add(1)),
                    count,
                )
            }
            Symbol::Types(count) => {
                let begins = begins_type(kind);
                self.part(
                    kind,
                    begins,
                    Symbol::Type,
                    Symbol::Types(count.saturating_add(1)),
                    count,
                )
            }
            _ => self.value_turn(symbol, kind),
        }
    }

    /// What stands in values.
    fn value_turn(&mut self, symbol: Symbol, kind: Kind) -> Result<Turn, Memory> {
        let compares = matches!(kind, Kind::Sign(Sign::Same | Sign::Less));
        match symbol {
            Symbol::Value => self.begin_value(),
            Symbol::EndValue => {
                self.inside = self.inside.saturating_sub(1);
                Ok(Turn::Again)
            }
            Symbol::Alone => {
                self.value = Some(self.at);
                self.expect([Symbol::Atom].as_slice())
            }
            Symbol::Place if kind == Kind::Sign(Sign::Query) => self.expect([Symbol::Take(
                kind,
            )].as_slice()),
            Symbol::Place => self.expect([Symbol::Alone].as_slice()),
            Symbol::Sum => self.expect([Symbol::Product, Symbol::Terms].as_slice()),
            Symbol::Product => self.expect([Symbol::Atom, Symbol::Factors].as_slice()),
            Symbol::Factors => {
                let stands = kind == Kind::Sign(Sign::Star);
                self.operator(kind, stands, Symbol::Atom, Symbol::Factors)
            }
            Symbol::Terms => {
                let stands = matches!(kind, Kind::Sign(Sign::Plus | Sign::Minus));
                self.operator(kind, stands, Symbol::Product, Symbol::Terms)
            }
            Symbol::Comparison => self.operator(kind, compares, Symbol::Sum, Symbol::Compared),
            Symbol::Compared => {
                self.compared = compares;
                Ok(Turn::Again)
            }
            _ => self.form_turn(symbol, kind),
        }
    }

    /// What comes of the symbol that is awaited first, where such a token stands.
    fn turn(&mut self, kind: Kind) -> Result<Turn, Memory> {
        match self.awaited.pop() {
            Some(Symbol::Take(wanted)) if wanted == kind => Ok(self.take()),
            Some(Symbol::Take(_)) | None => Ok(Turn::Stuck),
            Some(Symbol::Close) => self.leave(),
            Some(symbol) => self.list_turn(symbol, kind),
        }
    }

    /// Goes past a token of a kind, if it can stand here.
    fn step(&mut self, kind: Kind) -> Result<bool, Memory> {
        for _ in 0..MOST_TURNS {
            match self.turn(kind)? {
                Turn::Taken => return Ok(true),
                Turn::Again => {}
                Turn::Stuck => return Ok(false),
            }
        }
        Ok(false)
    }
}

/// What is known where tokens stop being those of a program, or behind them all.
pub fn reading_of(alloc: Global, tokens: &[Token]) -> Result<Reading, Memory> {
    let mut reading = Reading {
        alloc,
        awaited: List::new(alloc),
        at: 0,
        open: List::new(alloc),
        ended: List::new(alloc),
        compared: false,
        full: false,
        value: None,
        inside: 0,
    };
    reading.enter(Form::Program, PROGRAM.as_slice())?;
    for token in tokens {
        if !reading.step(kind_of(&token.what))? {
            return Ok(reading);
        }
    }
    reading.step(Kind::End)?;
    Ok(reading)
}
