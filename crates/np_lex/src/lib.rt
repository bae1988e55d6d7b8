//! The tokens of a source.
//!
//! `lex` gives the only list of tokens that the bytes have, or the first place where no token begins; bytes never have both.
//! In a value of the type `Tokens` the last token is the end, and each other one is a token of some bytes.
//!
//! Contracts: `lex`, `Tokens::as_slice`.
#![tactic(auto)]

mod fail;
mod front;
mod strings;
mod token;
mod tokens;

pub use fail::LexFail;
pub use token::{Key, Sign, Token, What};
pub use tokens::{Tokens, lex};
