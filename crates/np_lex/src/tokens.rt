ghost use Rattle.std.specs.Prelude.{◌≡◌, ◌≢◌, ◌≤◌, ◌+◌, List as Items, length, IfOk, IfErr};
ghost use Rattle.np_syntax.specs.declared.limits.TheConstants.{LONGEST_TEXT};
ghost use Rattle.np_lex.specs.declared.fail.LexFail.TheVariants as fail;
ghost use Rattle.np_lex.specs.declared.token.Token.{Token as OneToken};
ghost use Rattle.np_lex.specs.Tokens.{Lexes, AreTokens};
ghost use Rattle.np_lex.specs.Refusals.{IsRefused};

use super::fail::LexFail;
use super::front::{first_token, refusal, skip_len};
use super::token::{Token, What};
use np_syntax::List;
use std::alloc::Global;
use std::marker::Model;

/// The tokens of a source, the end of the source being the last.
#[derive(Drop)]
pub struct Tokens {
    items: List<Token>,
}

impl Model for Tokens {
    ghost use Rattle.std.specs.Prelude.{List as Items};
    ghost use Rattle.np_lex.specs.declared.token.Token.{Token as OneToken};
    ghost use Rattle.np_lex.specs.Tokens.{AreTokens};

    ghost Value = { Items OneToken };

    ghost view = { λ tokens. tokens.items };

    ghost invariant = { λ tokens. AreTokens tokens.items };
}

impl Tokens {
    pub fn as_slice(&self) -> &[Token]
        ensures value { result.now ≡ self.now }
        ensures legal { AreTokens self.now }
    {
        self.items.as_slice()
    }
}

/// The tokens of the source.
pub fn lex(alloc: Global, source: &[u8]) -> Result<Tokens, LexFail>
    requires { length source.now ≤ LONGEST_TEXT }
    ensures found { IfOk result (λ tokens. Lexes 0 source.now tokens) }
    ensures only { IfOk result (λ tokens. (others : Items OneToken) → Lexes 0 source.now others → others ≡ tokens) }
    ensures refused { IfErr result (λ e. e ≢ fail.Memory → IsRefused source.now e) }
    ensures none { IfErr result (λ e. e ≢ fail.Memory → (tokens : Items OneToken) → Lexes 0 source.now tokens → ⊥) }
    ensures room { IfOk result (λ tokens. length tokens ≤ length source.now + 1) }
    ensures legal { IfOk result (λ tokens. AreTokens tokens) }
{
    let mut items = List::new(alloc);
    let mut at = 0;
    'places: while at < source.len() {
        let (_, bytes) = source.split_at(at);
        let skipped = skip_len(bytes);
        if skipped > 0 {
            at += skipped;
        } else {
            let Some((len, what)) = first_token(alloc, bytes)? else {
                return Err(refusal(at as u32, bytes));
            };
            items.add(Token {
                at: at as u32,
                end: (at + len) as u32,
                what,
            })?;
            at += len;
        }
    }
    items.add(Token {
        at: at as u32,
        end: at as u32,
        what: What::End,
    })?;
    Ok(Tokens { items })
}
