//! A cursor over tokens.

ghost use Rattle.std.specs.Prelude.{◌≡◌, Ok, Err, MatchResult};
ghost use Rattle.np_parse.specs.Input as spec;
ghost use Rattle.np_parse.specs.Input.{Reads};

use super::fail::ParseFail;
use np_lex::{Key, Sign, Token, What};
use np_tree::Ident;
use std::alloc::Global;
use std::marker::Model;

/// What is left of the tokens.
#[derive(Drop)]
pub struct Cursor<'a> {
    rest: &'a [Token],
}

impl<'a> Model for Cursor<'a> {
    ghost use Rattle.std.specs.Prelude.{List};
    ghost use Rattle.np_lex.specs.declared.token.Token.{Token};

    ghost Value = { List Token };

    ghost view = { λ cursor. cursor.rest.now };
}

impl<'a> Cursor<'a> {
    pub fn new(tokens: &'a [Token]) -> Cursor<'a>
        ensures { result ≡ tokens.now }
    {
        Cursor { rest: tokens }
    }

    /// The offset of the next token.
    fn place(&self) -> u32
        ensures { result ≡ spec.place self.now }
    {
        match self.rest.split_first() {
            Some((token, _)) => token.at,
            None => 0,
        }
    }

    /// The refusal of the next token, where no program begins so.
    pub fn syntax(&self) -> ParseFail
        ensures { result ≡ spec.syntax self.now }
    {
        ParseFail::Syntax(self.place())
    }

    /// The refusal of the next token, where only deeper programs begin so.
    pub fn too_deep(&self) -> ParseFail
        ensures { result ≡ spec.too_deep self.now }
    {
        ParseFail::TooDeep(self.place())
    }

    /// What the next token is.
    #[tactic(auto, unfolding(crate::specs::Input::peek))]
    pub fn peek(&self) -> Result<&'a What, ParseFail>
        ensures { MatchResult result (λ what. spec.peek self.now ≡ Ok (what.now, self.now))
            (λ fail. spec.peek self.now ≡ Err (fail, self.now)) }
    {
        match self.rest.split_first() {
            Some((token, _)) => Ok(&token.what),
            None => Err(ParseFail::Syntax(0)),
        }
    }

    /// Goes past the next token, and says where it stood.
    #[tactic(auto, unfolding(crate::specs::Input::take))]
    pub fn take(&mut self) -> Result<u32, ParseFail>
        ensures { Reads (spec.take self.old) result self.new }
    {
        match self.rest.split_first() {
            Some((token, rest)) => {
                self.rest = rest;
                Ok(token.at)
            }
            None => Err(ParseFail::Syntax(0)),
        }
    }

    /// Takes this sign.
    #[tactic(auto, unfolding(crate::specs::Input::expect_sign))]
    pub fn expect_sign(&mut self, wanted: Sign) -> Result<u32, ParseFail>
        ensures { Reads (spec.expect_sign wanted self.old) result self.new }
    {
        match self.peek()? {
            What::Sign(sign) if *sign == wanted => self.take(),
            _ => Err(self.syntax()),
        }
    }

    /// Takes this keyword.
    #[tactic(auto, unfolding(crate::specs::Input::expect_word))]
    pub fn expect_word(&mut self, wanted: Key) -> Result<u32, ParseFail>
        ensures { Reads (spec.expect_word wanted self.old) result self.new }
    {
        match self.peek()? {
            What::Word(key) if *key == wanted => self.take(),
            _ => Err(self.syntax()),
        }
    }

    /// Takes the end.
    #[tactic(auto, unfolding(crate::specs::Input::expect_end))]
    pub fn expect_end(&mut self) -> Result<u32, ParseFail>
        ensures { Reads (spec.expect_end self.old) result self.new }
    {
        match self.peek()? {
            What::End => self.take(),
            _ => Err(self.syntax()),
        }
    }

    /// Takes a name.
    #[tactic(auto, unfolding(crate::specs::Input::name))]
    pub fn name(&mut self, alloc: Global) -> Result<Ident, ParseFail>
        ensures { Reads (spec.name self.old) result self.new }
    {
        match self.peek()? {
            What::Ident(text) => {
                let text = text.copy(alloc)?;
                let at = self.take()?;
                Ok(Ident { at, text })
            }
            _ => Err(self.syntax()),
        }
    }
}
